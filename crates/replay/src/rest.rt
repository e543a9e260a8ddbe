// The part of a batch that a replay left unread.
ghost use Rattle.std.specs.Prelude.{◌≡◌, length};
ghost use Rattle.replay.specs.Rest.{rest_of, rest_at};

// The bytes past those taken, as a part of the batch itself: it begins where they end. When more are
// told of than there are, nothing is left, and the part is empty and lies at the end.
pub fn unread_rest(batch: &[u8], taken: usize) -> &[u8]
    ensures bytes { result.now ≡ rest_of batch.now taken }
    ensures place { result.ref_ptr ≡ rest_at batch.entry.ref_ptr batch.now taken }
    ensures batch { batch.exit.now ≡ batch.entry.now }
{
    &batch[taken.min(batch.len())..]
}
