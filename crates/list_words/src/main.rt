// Lists the words of texts. Each line of the input is the name of a grammar, a blank and a text; each
// word of the text is told with its place and its kind, and then how the text ends.
#![tactic(auto)]

use json_grammar::json::Json;
use rules::language::Language;
use sexpr::sexpr::Sexpr;
use std::io;
use std::io::Write;
use words::word::Word;
use words::words::Words;

fn tell_word(rt: &HostRuntime, word: Word<'_>) -> io::Result<()> {
    let place = word.place();
    let kind = word.kind();
    print!(rt; "  {place} {kind} ")?;
    rt.stdout().write_all(word.part())?;
    println!(rt; "")
}

// Tells the words of a text; it has no more words than bytes, and a refusal comes behind them.
fn tell_words<L: Language>(rt: &HostRuntime, text: &[u8]) -> io::Result<()> {
    for word in Words::<L>::new(text).take(text.len() + 1) {
        match word {
            Ok(word) => tell_word(rt, word)?,
            Err(fault) => return println!(rt; "  refused by {fault}"),
        }
    }
    println!(rt; "  whole")
}

fn tell_line(rt: &HostRuntime, line: &str) -> io::Result<()> {
    println!(rt; "{line}")?;
    let bytes = line.as_bytes();
    if let Some(text) = bytes.strip_prefix(b"json ") {
        tell_words::<Json>(rt, text)
    } else if let Some(text) = bytes.strip_prefix(b"sexpr ") {
        tell_words::<Sexpr>(rt, text)
    } else {
        println!(rt; "  no such grammar")
    }
}

fn main(rt: HostRuntime) -> anyhow::Result<()> {
    for line in rt.lines(rt.alloc()) {
        tell_line(&rt, line?.as_str())?;
    }
    Ok(())
}
