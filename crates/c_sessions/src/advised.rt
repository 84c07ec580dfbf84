// What is wrong in a script.
ghost use Rattle.c_sessions.specs.Advised.{format_of};
ghost use Rattle.script_advice.specs.Advice.{grade_of, grade_status, report};
ghost use Rattle.std.specs.Prelude.{◌≡◌, IfOk, length, take};

use lwp_types::NoMemory;
use script_advice::{CheckEnd, Format, add_report, status_of};
use std::alloc::Global;

/// The first bytes of what is wrong in a script, how many they are in all, and how good the script is.
#[derive(Drop)]
pub struct Advice {
    pub front: Vec<u8>,
    pub len: usize,
    /// 0 nothing is wrong, 1 something is doubtful, 2 it is no script.
    pub grade: u32,
}

fn format_of(json: bool) -> Format
    ensures { result ≡ format_of json }
{
    if json { Format::Json } else { Format::Plain }
}

/// What is wrong in a script, as text for readers or as an object a line.
pub fn advise(alloc: Global, script: &[u8], json: bool, room: usize) -> Result<Advice, NoMemory>
    ensures front { IfOk result
        (λ told. told.front.items ≡ take room (report (format_of json) script.now)) }
    ensures len { IfOk result (λ told. told.len ≡ length (report (format_of json) script.now)) }
    ensures grade { IfOk result (λ told. told.grade ≡ grade_status (grade_of script.now)) }
{
    let mut front = Vec::new(alloc);
    let grade = add_report(alloc, &mut front, format_of(json), script)?;
    let len = front.len();
    front.truncate(room);
    Ok(Advice {
        front,
        len,
        grade: u32::from(status_of(CheckEnd::Told(grade))),
    })
}
