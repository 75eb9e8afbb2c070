// What is still held moves to the front, which is not behind it.
ghost use Rattle.std.specs.Prelude.{◌≡◌, length};
ghost use Rattle.std.proofs.lemmas.List.Edits.{sets};
ghost use Rattle.held.specs.Moves.{piece};

// Moves `n` items from a place on, or as many as there are, to the front, and answers how many.
pub fn move_up<T: Copy>(list: &mut [T], from: usize, n: usize) -> usize
    ensures value { result ≡ length (piece from n list.old) }
    ensures list_after { list.new ≡ sets list.old 0 (piece from n list.old) }
{
    let len = list.len();
    if len < from {
        return 0;
    }
    let k = n.min(len - from);
    list.copy_within(from..from + k, 0);
    k
}
