// The margins next to the limits.
use layout::margin::Margin;

// The columns of a margin, or the number of the refusal and the columns asked for.
fn columns(asked: u32) -> Result<u8, (u8, u32)> {
    Margin::try_from(asked)
        .map(|margin| margin.columns())
        .map_err(|fault| (fault.number(), fault.columns))
}

#[test]
fn margins(rt: HostRuntime) {
    assert_eq!(rt; columns(15), Err((1, 15)));
    assert_eq!(rt; columns(16), Ok(16));
    assert_eq!(rt; columns(120), Ok(120));
    assert_eq!(rt; columns(121), Err((1, 121)));
}
