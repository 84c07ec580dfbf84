// What is told of the cores of a search, and what words, kinds of ends and endings are as texts and numbers.
use lwp_explore::{
    Command, End, Ending, Kind, add_kind, command_of, fault_text, has_line, is_well, kind_of,
    list_kinds, number_of, quiet_nexts, status_of,
};
use search::Row;
use std::test::Fail;

// 4 comes at 0 and 3, and 2 at 2.
#[test]
fn each_number_is_listed_once(rt: HostRuntime) -> Result<(), Fail> {
    let numbers = [Some(4), None, Some(2), Some(4)];
    let listed = list_kinds(rt.alloc(), numbers.as_slice())?;
    assert_eq!(rt; listed.len(), 2);
    assert_eq!(rt; listed[0].number, 4);
    assert_eq!(rt; listed[0].first, 0);
    assert_eq!(rt; listed[0].cores, 2);
    assert_eq!(rt; listed[1].number, 2);
    assert_eq!(rt; listed[1].first, 2);
    assert_eq!(rt; listed[1].cores, 1);
    Ok(())
}

fn row(kind: Option<u32>) -> Row {
    Row {
        parent: 0,
        step: 0,
        kind,
    }
}

// A call is the only step from 0, 1 and 2. It leads from 0 to 1, from 1 to 2, and from 2 to 3, where it is not.
#[test]
fn calls_lead_from_quiet_cores(rt: HostRuntime) -> Result<(), Fail> {
    let rows = [row(Some(2)), row(Some(3)), row(Some(2)), row(Some(4))];
    let lasts = [Some(1), Some(2), Some(3), None];
    let nexts = quiet_nexts(rt.alloc(), rows.as_slice(), lasts.as_slice())?;
    assert_eq!(rt; nexts.len(), 4);
    assert_eq!(rt; nexts[0], Some(1));
    assert_eq!(rt; nexts[1], Some(2));
    assert_eq!(rt; nexts[2], None);
    assert_eq!(rt; nexts[3], None);
    Ok(())
}

#[test]
fn a_line_is_found(rt: HostRuntime) -> Result<(), Fail> {
    assert!(rt; has_line(b"ab\nc\n".as_slice(), b"c".as_slice()));
    Ok(())
}

#[test]
fn a_kind_has_a_number_and_a_name(rt: HostRuntime) -> Result<(), Fail> {
    let kind = Kind {
        end: End::Ended(3),
        left: true,
    };
    assert_eq!(rt; number_of(kind), 11);
    assert_eq!(rt; kind_of(11), kind);
    assert!(rt; !is_well(kind));
    let mut out = Vec::new(rt.alloc());
    add_kind(&mut out, kind)?;
    assert_eq!(rt; out.as_slice(), b"ended 3 with lines left".as_slice());
    Ok(())
}

#[test]
fn words_are_read(rt: HostRuntime) -> Result<(), Fail> {
    let mut words = Vec::new(rt.alloc());
    words.push("trace".to_string(rt.alloc())?)?;
    words.push("2".to_string(rt.alloc())?)?;
    let is_trace = matches!(
        command_of(&words),
        Some(Command::Trace {
            kind: 2,
            cores: 100_000
        })
    );
    assert!(rt; is_trace);
    Ok(())
}

#[test]
fn an_ending_has_a_status_and_a_text(rt: HostRuntime) -> Result<(), Fail> {
    assert_eq!(rt; status_of(Ending::Told), 109);
    let text = fault_text(rt.alloc(), Ending::Well)?;
    assert_eq!(rt; text.len(), 0);
    Ok(())
}
