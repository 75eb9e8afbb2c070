// Records of nine words in a list of words: the first word of a record is its time.
ghost use Rattle.std.specs.Prelude.{◌+◌, ◌/◌, ◌++◌, ◌≤◌, ◌≡◌, length, take, drop};
ghost use Rattle.probes.specs.Records.{records_of, falls};

// The records of a list of words.
pub(crate) fn records(words: &[u32]) -> &[[u32; 9]]
    ensures cut { result.now ≡ records_of words.now }
    ensures count { length result.now ≡ length words.now / 9 }
{
    words.as_chunks().0
}

// Whether a time is below the time before it.
pub(crate) fn time_falls(records: &[[u32; 9]]) -> bool
    ensures { result ≡ falls records.now }
{
    !records.is_sorted_by(|a, b| a[0] <= b[0])
}

// Puts a record at place `at`. Word by word, from a copy: `copy_from_slice` asks at each record whether it overlaps the list, and with
// it a join of alternating times takes 1.8 times its peer, above the bar of docs/SPEED.md; so the compiler moves sixteen bytes at a time.
pub(crate) fn put(words: &mut [u32], at: usize, record: &[u32; 9])
    requires { at + 9 ≤ length words.old }
    ensures written { take (at + 9) words.new ≡ take at words.old ++ «record».now }
    ensures kept { drop (at + 9) words.new ≡ drop (at + 9) words.old }
{
    let whole = *record;
    for k in 0..9 {
        words[at + k] = whole[k];
    }
}
