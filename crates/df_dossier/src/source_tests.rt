// What no clause says of source lines: that memory suffices; and a text worked out by hand.
use super::*;
use std::alloc::Global;
use std::test::Fail;

// The text of these lines, which have no line feeds.
#[tactic(auto, using(crate::proofs::LinesClean::word_line))]
fn kept(alloc: Global, lines: &[&[u8]]) -> Option<SourceText> {
    let mut text = SourceText::new(alloc);
    for line in lines {
        if line.iter().any(|b| *b == b'\n') {
            return None;
        }
        match text.with_line(line) {
            Ok(more) => text = more,
            Err(_) => return None,
        }
    }
    Some(text)
}

#[test]
fn source_lines_are_kept(rt: HostRuntime) -> Result<(), Fail> {
    let alloc = rt.alloc();
    let lines: [&[u8]; 4] = [b"group 7 # points", b"", b"k 3", b"lambda 1"];
    let Some(text) = kept(alloc, &lines) else {
        assert!(rt; false);
        return Ok(());
    };
    assert!(rt; text.text() == b"group 7 # points\n\nk 3\nlambda 1\n".as_slice());
    assert!(rt; text.parse(alloc).is_ok());
    Ok(())
}
