// The record, container by container: a bale with its weights, split into paper and glass; the paper
// is split into news and board.
use crate::desk::Desk;
use direct::receipt::Receipt;
use sink::sink::Sink;

pub(crate) fn bale<S: Sink>(desk: &mut Desk<'_, '_, S>) {
    desk.ask();
    let block = open(desk, "{");
    member(desk, "\"bale\"", "7");
    comma(desk);
    member(desk, "\"gross\"", "412");
    comma(desk);
    name(desk, "\"tare\"");
    tare(desk);
    comma(desk);
    desk.ask();
    name(desk, "\"split\"");
    split(desk);
    close(desk, block, "}");
    desk.ask();
}

// Behind the comma a Break with more blanks than it may have is refused, and the job goes on.
fn tare<S: Sink>(desk: &mut Desk<'_, '_, S>) {
    let block = open(desk, "[");
    desk.text("12");
    desk.text(",");
    desk.break_at(9, 0);
    desk.ask();
    desk.break_at(1, 0);
    desk.text("7");
    close(desk, block, "]");
}

fn split<S: Sink>(desk: &mut Desk<'_, '_, S>) {
    let block = open(desk, "[");
    paper(desk);
    comma(desk);
    part(desk, "\"glass\"", "153");
    close(desk, block, "]");
}

fn paper<S: Sink>(desk: &mut Desk<'_, '_, S>) {
    let block = open(desk, "{");
    weighed(desk, "\"paper\"", "240");
    comma(desk);
    name(desk, "\"split\"");
    paper_split(desk);
    close(desk, block, "}");
}

fn paper_split<S: Sink>(desk: &mut Desk<'_, '_, S>) {
    let block = open(desk, "[");
    part(desk, "\"news\"", "180");
    comma(desk);
    part(desk, "\"board\"", "60");
    close(desk, block, "]");
}

// A part that is not split again.
fn part<S: Sink>(desk: &mut Desk<'_, '_, S>, grade: &str, net: &str) {
    let block = open(desk, "{");
    weighed(desk, grade, net);
    close(desk, block, "}");
}

fn weighed<S: Sink>(desk: &mut Desk<'_, '_, S>, grade: &str, net: &str) {
    member(desk, "\"grade\"", grade);
    comma(desk);
    member(desk, "\"net\"", net);
}

fn member<S: Sink>(desk: &mut Desk<'_, '_, S>, key: &str, value: &str) {
    name(desk, key);
    desk.text(value);
}

fn name<S: Sink>(desk: &mut Desk<'_, '_, S>, key: &str) {
    desk.text(key);
    desk.text(": ");
}

fn comma<S: Sink>(desk: &mut Desk<'_, '_, S>) {
    desk.text(",");
    desk.break_at(1, 0);
}

// Opens a container by its bracket.
fn open<S: Sink>(desk: &mut Desk<'_, '_, S>, bracket: &str) -> Option<Receipt> {
    let block = desk.open_block();
    desk.text(bracket);
    desk.break_at(0, 0);
    block
}

// Closes a container by its bracket.
fn close<S: Sink>(desk: &mut Desk<'_, '_, S>, block: Option<Receipt>, bracket: &str) {
    desk.break_at(0, -2);
    desk.text(bracket);
    desk.end_block(block);
}
