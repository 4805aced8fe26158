//! The definitions of the texts at worked values. The call itself does nothing.

ghost use Rattle.std.specs.Prelude.{◌≡◌, ◌++◌, codes};
ghost use Rattle.trick_gen.specs.Texts.{jobs_text, object_text, definition_text, classes_text};

/// Jobs of the first class and of another, some objects, and a definition with two objects.
pub fn worked_texts()
    ensures first_jobs { jobs_text 0 ≡ codes "      (0.000001, \"scheduled\") step_a();\n"
        ++ codes "      (0.000002, \"scheduled\") step_b();\n      (0.000005, \"scheduled\") step_c();\n" }
    ensures jobs { jobs_text 3 ≡ codes "      C3 (0.000001, \"scheduled\") step_a();\n"
        ++ codes "      C3 (0.000002, \"scheduled\") step_b();\n      C3 (0.000005, \"scheduled\") step_c();\n" }
    ensures first_object { object_text 0 ≡ codes "G0 o0;\n" }
    ensures object { object_text 99 ≡ codes "G3 o99;\n" }
    ensures definition { definition_text 2 ≡ classes_text 4 ++ codes "G0 o0;\nG1 o1;\n" }
{}
