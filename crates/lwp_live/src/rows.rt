// An input, some steps and a script, worked out by hand.
ghost use Rattle.lwp_live.specs.Answers.{answers_in};
ghost use Rattle.lwp_live.specs.Input.{heard_lines, judge, posts_of, said_of};
ghost use Rattle.lwp_live.specs.Recorded.{counts_in, recorded, recorded_text};
ghost use Rattle.lwp_live.specs.Rows.{long_line, small_script, some_complaints, some_input, some_posts, some_steps, two_clients};
ghost use Rattle.lwp_live.specs.declared.arrival.Fault.TheVariants as fault;
ghost use Rattle.script_text.specs.Script.{lines_posted};
ghost use Rattle.std.specs.Prelude.{◌≡◌, [], ◌∷◌, Err, Ok, codes, replicate};

/// What the lines of an input are.
pub fn some_input_rows()
    ensures posts { posts_of two_clients some_input ≡ some_posts }
    ensures said { said_of two_clients some_input ≡ some_complaints }
{}

/// A text has 240 bytes at most.
pub fn long_rows()
    ensures most { judge two_clients (long_line 240) ≡ Ok (record { client = 0; text = replicate 240 97 }) }
    ensures more { judge two_clients (long_line 241) ≡ Err fault.Length }
{}

/// What some steps tell the clients.
pub fn some_steps_rows()
    ensures { answers_in some_steps ≡ codes "1 x y\n0\n" }
{}

/// A script with lines after its own.
pub fn recorded_rows()
    ensures posts { lines_posted (recorded small_script some_posts)
        ≡ record { client = 1; seq = 0; text = codes "b" } ∷ record { client = 0; seq = 0; text = codes "put k v" }
        ∷ record { client = 1; seq = 1; text = [] } ∷ record { client = 0; seq = 1; text = codes " a " }
        ∷ record { client = 0; seq = 2; text = codes "end" } ∷ [] }
    ensures text { recorded_text (codes "lwp 1\n") some_posts
        ≡ codes "lwp 1\npost 0 put k v\npost 1\npost 0  a \npost 0 end\n" }
    ensures counts { counts_in small_script ≡ 0 ∷ 1 ∷ [] }
{}
