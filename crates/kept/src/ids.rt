// The CompIDs of a session's two sides, which go together wherever a place is looked at.
ghost use Rattle.std.specs.Prelude.{◌≡◌, true, ◌+◌, length};
ghost use Rattle.message.specs.Unfit.{comp_id};

// Ours and the peer's, each a CompID as the document has it.
#[derive(Clone, Copy)]
pub struct CompIds<'a> {
    pub us: &'a [u8],
    pub them: &'a [u8],
    pub ghost ours: { comp_id us.now ≡ true },
    pub ghost peers: { comp_id them.now ≡ true },
}

impl<'a> CompIds<'a> {
    // How many bytes both have together: at most 22 (`both` in proofs/Few.antt).
    pub fn len(&self) -> usize
        ensures { result ≡ length self.now.us.now + length self.now.them.now }
    {
        self.us.len() + self.them.len()
    }
}
