// Pods at their limits.
ghost use Rattle.lwp_types.specs.declared.call.Answer.TheVariants as answer;
ghost use Rattle.lwp_types.specs.declared.call.Call.TheVariants as call;
ghost use Rattle.lwp_types.specs.declared.call.ExitCall.TheVariants as exit;
ghost use Rattle.lwp_types.specs.declared.call.Func.TheVariants as func;
ghost use Rattle.lwp_types.specs.declared.call.LwpErr.TheVariants as error;
ghost use Rattle.lwp_types.specs.declared.call.Pattern.TheVariants as pattern;
ghost use Rattle.worked_rows.specs.Limits.{Answers, Refuses, a_thousand_and_twenty_four_threads, agents_full, entered, sixty_four_frames, sixty_four_frames_exact_turns, sixty_four_frames_one_turn_fewer, two_hundred_and_fifty_six_marks, value, with_births, with_conditions, with_frames, with_marks, with_monitors, with_patterns, with_registrations, with_threads};
ghost use Rattle.worked_rows.specs.Words.{IsWorked, plain};

/// Scripts that come to a limit by themselves.
pub fn reached()
    ensures frames { IsWorked sixty_four_frames }
    ensures frames_exact_turns { IsWorked sixty_four_frames_exact_turns }
    ensures frames_one_turn_fewer { IsWorked sixty_four_frames_one_turn_fewer }
    ensures marks { IsWorked two_hundred_and_fifty_six_marks }
    ensures agents { IsWorked agents_full }
    ensures threads { IsWorked a_thousand_and_twenty_four_threads }
{}

/// At most 1,024 threads live, and 256 monitors and conditions each.
pub fn live()
    ensures last_thread { Answers (with_threads 1023) (call.Create 0 1 plain) (answer.Thread 1023) }
    ensures no_thread { Refuses (with_threads 1024) (call.Create 0 1 plain) error.NoRoom }
    ensures last_monitor { Answers (with_monitors 255) call.MonCreate (answer.Monitor 255) }
    ensures no_monitor { Refuses (with_monitors 256) call.MonCreate error.NoRoom }
    ensures last_condition { Answers (with_conditions 255) (call.CvCreate 0) (answer.Cond 255) }
    ensures no_condition { Refuses (with_conditions 256) (call.CvCreate 0) error.NoRoom }
{}

/// Births of each kind are at most as many as the pod allows.
pub fn births()
    ensures last_thread { Answers (with_births 4294967294) (call.Create 0 1 plain) (answer.Thread 4294967294) }
    ensures no_thread { Refuses (with_births 4294967295) (call.Create 0 1 plain) error.NoRoom }
    ensures last_agent { Answers (with_births 4294967294) (call.Agent 31) (answer.Thread 4294967294) }
    ensures no_agent { Refuses (with_births 4294967295) (call.Agent 31) error.NoRoom }
    ensures last_monitor { Answers (with_births 4294967294) call.MonCreate (answer.Monitor 4294967294) }
    ensures no_monitor { Refuses (with_births 4294967295) call.MonCreate error.NoRoom }
    ensures last_condition { Answers (with_births 4294967294) (call.CvCreate 0) (answer.Cond 4294967294) }
    ensures no_condition { Refuses (with_births 4294967295) (call.CvCreate 0) error.NoRoom }
{}

/// A monitor is entered at most 65,535 times.
pub fn depth()
    ensures last_enter { Answers (entered 65534) (call.Enter 0) (value 65534) }
    ensures last_cond_enter { Answers (entered 65534) (call.CondEnter 0) (value 65534) }
    ensures no_enter { Refuses (entered 65535) (call.Enter 0) error.NoRoom }
    ensures no_cond_enter { Refuses (entered 65535) (call.CondEnter 0) error.NoRoom }
    ensures exit { Answers (entered 65535) (call.MonExit 0) (value 0) }
{}

/// A thread is in at most 64 procedures, and has at most 256 marks.
pub fn stack()
    ensures last_frame { Answers (with_frames 63) (call.CallProc 0) (value 0) }
    ensures no_frame { Refuses (with_frames 64) (call.CallProc 0) error.NoRoom }
    ensures last_mark_by_call { Answers (with_marks 255) (call.CallProc 0) (value 0) }
    ensures last_mark_by_handle { Answers (with_marks 255) (call.Handle (pattern.Num 1) func.Sum 1) (value 0) }
    ensures last_mark_by_onexit { Answers (with_marks 255) (call.OnExit (exit.MonExit 0)) (value 0) }
    ensures no_mark_by_call { Refuses (with_marks 256) (call.CallProc 0) error.NoRoom }
    ensures no_mark_by_handle { Refuses (with_marks 256) (call.Handle pattern.All func.Give 1) error.NoRoom }
    ensures no_pattern_before_no_room { Refuses (with_marks 256) (call.Handle (pattern.Num 0) func.Give 1)
        error.InvalidArg }
    ensures no_mark_by_onexit { Refuses (with_marks 256) (call.OnExit (exit.MonExit 0)) error.NoRoom }
{}

/// 4,294,967,295 exit procedures are registered in a pod, and patterns are given up to 2,147,483,647.
pub fn given()
    ensures last_registration { Answers (with_registrations 4294967294) (call.OnExit (exit.SetExit 1))
        (value 4294967294) }
    ensures no_registration { Refuses (with_registrations 4294967295) (call.OnExit (exit.SetExit 1)) error.NoRoom }
    ensures last_pattern { Answers (with_patterns 2147483647) call.UniqPatt (value 2147483647) }
    ensures no_pattern { Refuses (with_patterns 2147483648) call.UniqPatt error.NoRoom }
{}
