// The sinks at their edges, and a run that is cut.

ghost use Rattle.std.specs.Prelude.{◌≡◌, [], take, drop};
ghost use Rattle.sink.specs.Rule.{kept};
ghost use Rattle.sink.specs.WindowText.{rule_in};

use crate::fault::{FULL, SinkFault};
use crate::sink::Sink;
use crate::slip::Slip;
use crate::window::Window;
use crate::write::{write, write_blanks, write_line};
use arrayvec::ArrayString;
use std::fmt::Write;
use std::test::Fail;

// A sink of this kind was full, and `text` bytes of the print stand.
fn full(kind: u8, text: usize) -> Result<(), SinkFault> {
    let number = FULL;
    Err(SinkFault { number, kind, text })
}

// What a lender knows: the text stands in front, and the bytes past it are as they were.
fn lend(buffer: &mut [u8], bytes: &[u8]) -> usize
    ensures text { take result buffer.new ≡ kept (rule_in buffer.old).admits [] bytes.now }
    ensures past { drop result buffer.new ≡ drop result buffer.old }
{
    let mut window = Window::new(buffer);
    let _ = write(&mut window, 0, bytes);
    window.len()
}

#[test]
fn buffer_lent(rt: HostRuntime) {
    let mut bytes = [b'.'; 4];
    assert_eq!(rt; lend(&mut bytes, b"abc"), 3);
    assert!(rt; &bytes[0..4] == b"abc.".as_slice());
}

#[test]
fn window_edge(rt: HostRuntime) {
    let mut bytes = [b'.'; 3];
    let mut window = Window::new(&mut bytes);
    assert_eq!(rt; write(&mut window, 0, b"abc"), Ok(()));
    assert_eq!(rt; write(&mut window, 0, b"d"), full(1, 3));
    assert!(rt; window.text() == b"abc".as_slice());
}

#[test]
fn window_of_nothing(rt: HostRuntime) {
    let mut bytes: [u8; 0] = [];
    let mut window = Window::new(&mut bytes);
    assert_eq!(rt; write(&mut window, 0, b""), Ok(()));
    assert_eq!(rt; write(&mut window, 0, b"a"), full(1, 0));
}

#[test]
fn cut_behind_older(rt: HostRuntime) {
    let mut bytes = [b'.'; 6];
    let mut window = Window::new(&mut bytes);
    assert_eq!(rt; write(&mut window, 0, b"ab\n "), Ok(()));
    assert_eq!(rt; write(&mut window, 2, b"cde"), full(1, 4));
    assert!(rt; window.text() == b"ab\n cd".as_slice());
}

#[test]
fn slip_edges(rt: HostRuntime) {
    let mut slip = Slip::new();
    assert_eq!(rt; write_blanks(&mut slip, 0, 40), Ok(()));
    assert_eq!(rt; write_blanks(&mut slip, 0, 1), full(2, 40));
    assert_eq!(rt; write(&mut slip, 40, &[b'\n'; 15]), Ok(()));
    assert_eq!(rt; write_line(&mut slip, 40, 0), full(2, 15));
    assert_eq!(rt; slip.row(15), Some(b"".as_slice()));
    assert_eq!(rt; slip.row(16), None);
}

#[test]
fn fault_is_told(rt: HostRuntime) -> Result<(), Fail> {
    let fault = SinkFault {
        number: FULL,
        kind: 1,
        text: 3,
    };
    let mut told: ArrayString<40> = ArrayString::new();
    write!(told, "{fault}")?;
    assert_eq!(rt; told.as_str(), "refused by 10, kind 1, behind 3 bytes");
    Ok(())
}
