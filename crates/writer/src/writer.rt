// The model file in the making, in two lent lists.
ghost use Rattle.std.specs.Prelude.{◌+◌, ◌≤◌, length};
ghost use Rattle.writer.specs.internal.Tokens.{Put};

// The lists, and where the next word and the next constant go, which is also that constant's running number, and the running number of
// the next shared part or row. Not two of base's list writers: where a loan ends, the proof knows nothing of a list that lies two structs
// deep, so that write_model's did not close.
#[derive(Drop)]
pub struct ModelWriter<'a> {
    pub words: &'a mut [u32],
    pub constants: &'a mut [f64],
    pub word: usize,
    pub constant: usize,
    pub part: usize,
}

impl ModelWriter<'_> {
    // Words in which so many parts begin, and their constants. The caller knows how many; here it would be a loop over the words.
    pub fn put(&mut self, words: &[u32], numbers: &[f64], begun: usize)
        requires words { self.old.word + length words.now ≤ length self.old.words.now }
        requires numbers { self.old.constant + length numbers.now ≤ length self.old.constants.now }
        requires parts { self.old.part + begun ≤ 268435456 }
        ensures { Put self.old words.now numbers.now begun self.new }
    {
        let word = self.word + words.len();
        let constant = self.constant + numbers.len();
        self.words[self.word..word].copy_from_slice(words);
        self.constants[self.constant..constant].copy_from_slice(numbers);
        self.word = word;
        self.constant = constant;
        self.part += begun;
    }
}
