// Texts, and what is read of them.
ghost use Rattle.std.specs.Prelude.{◌≡◌, [], length, Ok, Err, codes};
ghost use Rattle.fault.specs.Faults.{fault};
ghost use Rattle.fault.specs.declared.refusal.Refusal.TheVariants.{LineForm, NumberRange, BytesLeft};
ghost use Rattle.label.specs.Examples.{example, example_text, example_with};
ghost use Rattle.label.specs.Labels.{text, read_answer};

// The definitions give these answers for the example and for texts near it.
pub fn label_examples_hold()
    ensures length { length example_text ≡ 123 }
    ensures written { text example ≡ example_text }
    ensures read { read_answer example_text ≡ Ok example }
    ensures small_page { read_answer (example_with (codes "32") (codes "63") []) ≡ Err (fault NumberRange 7) }
    ensures large_page { read_answer (example_with (codes "32") (codes "4097") []) ≡ Err (fault NumberRange 7) }
    ensures leading_zero { read_answer (example_with (codes "033") (codes "1024") []) ≡ Err (fault LineForm 3) }
    ensures five_digits { read_answer (example_with (codes "32") (codes "10240") []) ≡ Err (fault LineForm 7) }
    ensures bytes_left { read_answer (example_with (codes "32") (codes "1024") (codes "x")) ≡ Err (fault BytesLeft 10) }
{}
