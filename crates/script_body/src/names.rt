// The names that calls set.
ghost use Rattle.std.specs.Prelude.{◌≡◌};
ghost use Rattle.script_body.specs.Naming.{with_thread_name_by, with_monitor_name_by, with_condition_name_by, after_name_by};

use lwp_types::{Answer, Env};
use script_text::Stmt;

/// Sets the name, if the call has made something of its kind.
pub fn name_thread(env: &mut Env, name: u32, got: &Answer)
    ensures { env.new ≡ with_thread_name_by name got.now env.old }
{
    if let Answer::Thread(tid) = got {
        env.set_thread(name, *tid);
    }
}

/// Sets the name, if the call has made something of its kind.
pub fn name_monitor(env: &mut Env, name: u32, got: &Answer)
    ensures { env.new ≡ with_monitor_name_by name got.now env.old }
{
    if let Answer::Monitor(mon) = got {
        env.set_mon(name, *mon);
    }
}

/// Sets the name, if the call has made something of its kind.
pub fn name_condition(env: &mut Env, name: u32, got: &Answer)
    ensures { env.new ≡ with_condition_name_by name got.now env.old }
{
    if let Answer::Cond(cond) = got {
        env.set_cond(name, *cond);
    }
}

/// Sets the name of the last call's statement, if the call has made something.
pub fn name_by(env: &mut Env, got: &Answer, made: &Stmt)
    ensures { env.new ≡ after_name_by got.now made.now env.old }
{
    match made {
        Stmt::Create { name, .. } | Stmt::Agent { name, .. } => name_thread(env, *name, got),
        Stmt::MonCreate { mon } => name_monitor(env, *mon, got),
        Stmt::CvCreate { cond, .. } => name_condition(env, *cond, got),
        _ => {}
    }
}
