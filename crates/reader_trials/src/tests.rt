// What the trials share, and the trials.
use grammar::grammar::Grammar;
use grammar::refusal::Refusal;
use json_grammar::json::Json;
use layout::token::Token;
use reader::reader::Reader;
use sexpr::sexpr::Sexpr;

type JsonReader = Reader<Json>;

type SexprReader = Reader<Sexpr>;

// The length of a text that is accepted; else the number and the place of its refusal.
fn accepted<G: Grammar + Drop>(text: &[u8]) -> Result<usize, (u8, usize)> {
    let mut reader = G::fresh();
    for (place, byte) in text.iter().enumerate() {
        if let Err(refusal) = reader.take(*byte) {
            return Err((refusal.number(), place));
        }
    }
    match reader.end() {
        Ok(_) => Ok(text.len()),
        Err(refusal) => Err((refusal.number(), text.len())),
    }
}

// How many words and tokens the last byte of a text gives, and how many brackets are then open.
fn last_byte<G: Grammar + Drop>(text: &[u8]) -> Result<(u32, u32, u32), Refusal> {
    let mut reader = G::fresh();
    let mut given = (0, 0);
    for byte in text {
        let step = reader.take(*byte)?;
        given = (step.words, step.tokens);
    }
    Ok((given.0, given.1, reader.depth()))
}

// A letter for the token of this number, which spells the order of tokens in one text, among those that the last byte of a text gives: o, b, t or e; n for none.
fn letter<G: Grammar + Drop>(text: &[u8], number: u32) -> u8 {
    let mut reader = G::fresh();
    for byte in text {
        if reader.take(*byte).is_err() {
            return b'?';
        }
    }
    match reader.token(number) {
        None => b'n',
        Some(Token::Opening(_)) => b'o',
        Some(Token::Break(_)) => b'b',
        Some(Token::Text(_)) => b't',
        Some(Token::Ending) => b'e',
    }
}

// Bytes that no line of text has: control bytes, and bytes that are no text.
#[test]
fn bytes_outside_text(rt: HostRuntime) {
    assert_eq!(rt; accepted::<JsonReader>(b"[\x00]"), Err((3, 1)));
    assert_eq!(rt; accepted::<JsonReader>(b"\"a\x1f\""), Err((3, 2)));
    assert_eq!(rt; accepted::<JsonReader>(b"\"a\nb\""), Err((3, 2)));
    assert_eq!(rt; accepted::<JsonReader>(b"\"\x80\xff\""), Ok(4));
    assert_eq!(rt; accepted::<JsonReader>(b"\xef\xbb\xbf1"), Err((3, 0)));
    assert_eq!(rt; accepted::<JsonReader>(b"\t\r\n1\r\n"), Ok(6));
    assert_eq!(rt; accepted::<SexprReader>(b"a\x01"), Err((3, 1)));
    assert_eq!(rt; accepted::<SexprReader>(b"\x80\xff"), Ok(2));
    assert_eq!(rt; accepted::<SexprReader>(b"\"\\\x1f\""), Err((3, 2)));
    assert_eq!(rt; accepted::<SexprReader>(b"a\r\n(b)\n"), Ok(7));
}

// The words and tokens of a byte, and the brackets open behind it.
#[test]
fn what_a_byte_gives(rt: HostRuntime) {
    assert_eq!(rt; last_byte::<JsonReader>(b"["), Ok((1, 2, 1)));
    assert_eq!(rt; last_byte::<JsonReader>(b"[1"), Ok((0, 0, 1)));
    assert_eq!(rt; last_byte::<JsonReader>(b"[1]"), Ok((2, 5, 0)));
    assert_eq!(rt; last_byte::<JsonReader>(b"[]"), Ok((1, 2, 0)));
    assert_eq!(rt; last_byte::<JsonReader>(b"[1,"), Ok((2, 3, 1)));
    assert_eq!(rt; last_byte::<JsonReader>(b"{\"a\""), Ok((1, 2, 1)));
    assert_eq!(rt; last_byte::<SexprReader>(b"(a"), Ok((0, 0, 1)));
    assert_eq!(rt; last_byte::<SexprReader>(b"(a("), Ok((2, 4, 2)));
    assert_eq!(rt; last_byte::<SexprReader>(b"(a \"b\""), Ok((1, 2, 1)));
    assert_eq!(rt; last_byte::<SexprReader>(b"(a)"), Ok((2, 3, 0)));
}

// The order of tokens: a number and the bracket behind it; an atom and an opening behind it.
#[test]
fn the_order_of_tokens(rt: HostRuntime) {
    for (number, expected) in (0..6).zip(b"btbten") {
        assert_eq!(rt; letter::<JsonReader>(b"[1]", number), *expected);
    }
    for (number, expected) in (0..5).zip(b"tbotn") {
        assert_eq!(rt; letter::<SexprReader>(b"(a(", number), *expected);
    }
}
