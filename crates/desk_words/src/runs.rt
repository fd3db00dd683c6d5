// Runs of words: put from lists, and read into an array.
ghost use Rattle.std.specs.Prelude.{◌≡◌, ◌++◌, ◌+◌, ◌≤◌, length};
ghost use Rattle.definitions.specs.Questions.{part};
ghost use Rattle.desk_words.specs.Words.{PutAt};

// Puts numbers, then numbers of places or cells, from a word on.
pub fn put_run(words: &mut [u64], at: usize, numbers: &[u64], indices: &[usize])
    requires { at + length numbers.now + length indices.now ≤ length words.old }
    ensures { PutAt words.old at (numbers.now ++ indices.now) words.new }
{
    let rest = at + numbers.len();
    words[at..rest].copy_from_slice(numbers);
    for (j, index) in indices.iter().enumerate() {
        words[rest + j] = *index as u64;
    }
}

// Words from one on as numbers of places or cells.
pub fn run_at<const N: usize>(words: &[u64], at: usize) -> [usize; N]
    requires { at + N ≤ length words.now }
    ensures { result ≡ part words.now at N }
{
    std::array::from_fn(|j| words[at + j] as usize)
}
