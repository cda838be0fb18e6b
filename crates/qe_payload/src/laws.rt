//! What holds of payloads and blobs.

ghost use Rattle.qe_find.specs.Equal.{equal_at, IsEqualBlob};
ghost use Rattle.qe_find.specs.Range.{range_at, IsRangeBlob};
ghost use Rattle.qe_insert.specs.Insert.{insert_at, IsInsertBlob};
ghost use Rattle.qe_parts.specs.Laws.{PayloadLaws};
ghost use Rattle.qe_payload.specs.Laws.{WhatIsRead, WhatIsReadFits, WrittenLengths};

use qe_find::find_laws;
use qe_insert::insert_laws;

/// A blob is one payload at most, and is one exactly where nothing is refused; cut short it is refused.
pub fn payload_laws()
    ensures insert { PayloadLaws insert_at IsInsertBlob }
    ensures equal { PayloadLaws equal_at IsEqualBlob }
    ensures range { PayloadLaws range_at IsRangeBlob }
{
    insert_laws();
    find_laws();
}

/// What is read is what stands under the names of the document.
pub fn what_is_read()
    ensures { WhatIsRead }
{
    insert_laws();
    find_laws();
}

/// What was read has the form that writing asks for.
pub fn what_is_read_fits()
    ensures { WhatIsReadFits }
{
    insert_laws();
    find_laws();
}

/// How many bytes the written payloads have.
pub fn written_lengths()
    ensures { WrittenLengths }
{
    insert_laws();
    find_laws();
}
