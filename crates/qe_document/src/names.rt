//! Whether a name stands in a document before: a scan of the first fields, and a set of the later ones' names.

ghost use Rattle.std.specs.Prelude.{◌≡◌, ℕ, List, ◌∷◌, ◌++◌, [], true, not, drop, map, IfOk};
ghost use Rattle.qe_value.specs.Names.{is_named};
ghost use Rattle.qe_document.specs.NameSet.{Knows};
ghost use Rattle.qe_value.specs.Views.{field_view};
ghost use Rattle.qe_value.specs.declared.value.Plain.{Plain};

use qe_base::Text;
use qe_value::{Value, has_name};
use std::alloc::AllocError;
use std::collections::BTreeSet;

/// So many fields are scanned.
pub(crate) const FEW: usize = 16;

// Adds a name to the set, and answers whether it is new there.
fn add<'a>(seen: &mut BTreeSet<&'a str>, name: &'a str) -> Result<bool, AllocError>
    ensures new { (fields : List (List ℕ × Plain)) → Knows seen.old fields → IfOk result (λ new. new ≡ not (is_named name.now fields)) }
    ensures knows { (fields : List (List ℕ × Plain)) (value : Plain) → Knows seen.old fields → IfOk result (λ _. Knows seen.new (fields ++ (name.now, value) ∷ [])) }
{
    let new = seen.insert(name)?;
    Ok(new)
}

/// Whether no field has the name. The set has the names from the 17th on; a new name is added where it stands there.
pub(crate) fn is_new<'a>(
    before: &[(Text, Value)],
    seen: &mut BTreeSet<&'a str>,
    name: &'a str,
) -> Result<bool, AllocError>
    requires { Knows seen.old (drop 16 (map field_view before.now)) }
    ensures new { IfOk result (λ new. new ≡ not (is_named name.now (map field_view before.now))) }
    ensures knows { (value : Plain) → IfOk result (λ new. new ≡ true → Knows seen.new (drop 16 (map field_view before.now ++ (name.now, value) ∷ []))) }
{
    if before.len() < FEW {
        let named = has_name(before, name);
        return Ok(!named);
    }
    let (few, _) = before.split_at(FEW);
    if has_name(few, name) {
        return Ok(false);
    }
    add(seen, name)
}
