// The receipt of an open block: the job's number and the number of the block's Opening. It cannot be
// copied or let go: an Ending takes it, or a drained job.
pub struct Receipt {
    pub(crate) job: u32,
    pub(crate) token: u32,
}
