//! Laws about both directions.

ghost use Rattle.std.specs.Prelude.{◌≡◌, ◌<◌, ◌≤◌, ◌↔◌, true, false, Ok, Err};
ghost use Rattle.serde_json.specs.Data.{Data, depth};
ghost use Rattle.qe_value.specs.declared.value.Plain.{Plain};
ghost use Rattle.qe_bson.specs.declared.extended_json.fault.JsonFault.{JsonFault};
ghost use Rattle.qe_bson.specs.declared.extended_json.fault.JsonFault.TheVariants.{TooDeep, Unprintable};
ghost use Rattle.qe_document.specs.Limits.{most_levels};
ghost use Rattle.qe_bson.specs.JsonReading.{value_of_json};
ghost use Rattle.qe_bson.specs.JsonRound.{typed, ordered, levels};
ghost use Rattle.qe_bson.specs.JsonWriting.{json_of, formless};

/// Nothing of more than 100 levels is read, and `TooDeep` comes only where there are more. An object of a form is a
/// level, and so is one inside it.
pub fn a_hundred_levels_are_read()
    ensures within { (d : Data) (v : Plain) → value_of_json d ≡ Ok v → depth d ≤ most_levels }
    ensures too_deep { (d : Data) → value_of_json d ≡ Err TooDeep → most_levels < depth d }
{}

/// A value is `Unprintable` exactly where a double, a decimal or a timestamp stands in it, and no value has another
/// fault.
pub fn what_is_unprintable()
    ensures exactly { (v : Plain) → (json_of v ≡ Err Unprintable) ↔ (formless v ≡ true) }
    ensures alone { (v : Plain) (fault : JsonFault) → json_of v ≡ Err fault → fault ≡ Unprintable }
{}

/// No value that is read holds a double, a decimal or a timestamp, so each can be printed.
pub fn what_is_read_has_a_form()
    ensures { (d : Data) (v : Plain) → value_of_json d ≡ Ok v → formless v ≡ false }
{}

/// What is printed of a value is read as the value again, where the names of each document rise and none has a form's
/// name alone, and the JSON has at most 100 levels.
pub fn what_is_printed_is_read_again()
    ensures { (v : Plain) (d : Data) → json_of v ≡ Ok d → typed v ≡ true → ordered v ≡ true → levels v ≤ most_levels
        → value_of_json d ≡ Ok v }
{}
