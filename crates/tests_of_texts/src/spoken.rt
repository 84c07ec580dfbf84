// Which lines are told at one look, worked out by hand: a text that is empty goes by the table.
use script_lines::{posted_at, said_at};

fn says(line: &[u8], wanted: &[u8]) -> bool {
    match said_at(line) {
        Some(text) => text == wanted,
        None => wanted.is_empty(),
    }
}

fn posts(line: &[u8], wanted: (u8, &[u8])) -> bool {
    match posted_at(line) {
        Some((client, text)) => client == wanted.0 && text == wanted.1,
        None => wanted.1.is_empty(),
    }
}

#[test]
fn a_line_that_says_a_text_is_told_at_one_look(rt: HostRuntime) {
    let rows: [(&[u8], &[u8]); 5] = [
        (b"say x", b"x"),
        (b"say two words", b"two words"),
        (b"say ", b""),
        (b"sey x", b""),
        (b"post 1 x", b""),
    ];
    for (line, wanted) in rows {
        assert!(rt; says(line, wanted), "at {line:?}");
    }
}

#[test]
fn a_line_that_posts_a_text_is_told_at_one_look(rt: HostRuntime) {
    let rows: [(&[u8], u8, &[u8]); 5] = [
        (b"post 0 x", 0, b"x"),
        (b"post 15 put k v", 15, b"put k v"),
        (b"post 0 ", 0, b""),
        (b"post 16 x", 0, b""),
        (b"say x", 0, b""),
    ];
    for (line, client, wanted) in rows {
        assert!(rt; posts(line, (client, wanted)), "at {line:?}");
    }
}
