use script_printer::print_script;
use script_text::*;
use std::alloc::Global;

const FIRST_RUN: &[u8] =
    b"lwp 1\npod 1\nproc main\ncreate a worker 1 -\nyield self\nproc worker\nsay hi\n";

// Each row of the table after the first lines.
const EVERY_ROW: &[u8] =
    b"lwp 1\npod 9\nlimit births 7\nclient 0 31\nclient 1 0\nnative n store\nnative s session 3 db\nproc p\ncreate a n 1 snv\ncreate b p 4294967295 -\ndestroy a\nping self\nyield first\nsuspend sender\nresume none\njoin b\nsleep 4294967295\nresched 0\nsetpri a 1\nsetmaxpri 1\nself\nsetexit 1\ngetexit\npodexit 0\nthreads\nsend a 240  two\nsend a 0\nrecv any poll\nrecv c wait\nrecv self 4294967295\nreply sender\nsenders\nreceivers\nmoncreate m\ncvcreate c m\nmondestroy m\nenter m\ncondenter m\nmonexit m\nmonbreak m\nmonwaiters m\nmonitors\ncvdestroy c\nwait c\nnotify c\nbroadcast c\ncvsend c a\ncvwaiters c\nconditions\ncall q\nreturn\nhandle all - 0\nhandle 7 give 1\nhandle 8 sum 2\nunhandle\nraise 1\nexcnotify 1\nbound 1\nuniqpatt\nonexit monexit m\nonexit monbreak m\nonexit notify c\nonexit broadcast c\nonexit reply a x\nonexit resume a\nonexit setexit 1\nonexit note\nagent g 40\nagents\nsay\nsay x\nskip ok\nskip err\nskip caught\nskip is 4294967295\nagain\nproc q\npost 0 a\npost 1\npost 0  b\n";

// Whether a script of so many procedures, names of procedures, texts and posted lines was read.
fn holds(read: Result<Script, ReadErr>, wanted: [usize; 4]) -> bool {
    let Ok(script) = read else {
        return false;
    };
    [
        script.procs.len(),
        script.names.procs.len(),
        script.texts.len(),
        script.posts.len(),
    ] == wanted
}

// Feeds a text in pieces of so many bytes, the first of which has another length.
fn feed_all(
    reader: &mut ScriptReader,
    text: &[u8],
    first: usize,
    size: usize,
) -> Result<(), ReadErr> {
    let (front, back) = text.split_at(first.min(text.len()));
    reader.feed(front)?;
    for piece in back.chunks(size.max(1)) {
        reader.feed(piece)?;
    }
    Ok(())
}

fn in_pieces(alloc: Global, text: &[u8], first: usize, size: usize) -> Result<Script, ReadErr> {
    let mut reader = ScriptReader::new(alloc);
    feed_all(&mut reader, text, first, size)?;
    reader.finish()
}

#[test]
fn reads_the_first_run_however_it_is_cut(rt: HostRuntime) {
    for first in 0..FIRST_RUN.len() + 1 {
        for size in [1, 100] {
            let read = in_pieces(rt.alloc(), FIRST_RUN, first, size);
            assert!(rt; holds(read, [2, 2, 1, 0]), "cut at {first}");
        }
    }
}

fn is_printed_back(alloc: Global) -> Result<bool, ReadErr> {
    let script = read_script(alloc, EVERY_ROW)?;
    let text = print_script(alloc, &script)?;
    Ok(text.as_slice() == EVERY_ROW && holds(Ok(script), [2, 4, 10, 3]))
}

#[test]
fn prints_every_row_back(rt: HostRuntime) {
    assert!(rt; matches!(is_printed_back(rt.alloc()), Ok(true)));
}
