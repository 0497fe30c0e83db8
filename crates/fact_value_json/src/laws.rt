//! Laws of values in JSON.

ghost use Rattle.fact_value_json.specs.JsonLaws.{ListsReadAreOfTypes, ListsReadBack, ValuesHaveTexts, ValuesReadAreOfTypes, ValuesReadBack};

/// What holds of values that are printed and read. The call does nothing: its contract is the laws. What is printed of a value
/// of a type, or of values of several types, is read as that value, or as those values. What is read by a type, or by several
/// types, where texts are UTF-8, is a value of that type, or are values of those types; and texts of JSON values are UTF-8.
pub fn laws_of_json_values()
    ensures value { ValuesReadBack }
    ensures list { ListsReadBack }
    ensures value_read { ValuesReadAreOfTypes }
    ensures list_read { ListsReadAreOfTypes }
    ensures texts { ValuesHaveTexts }
{}
