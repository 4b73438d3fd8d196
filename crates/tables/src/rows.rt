// What either form of the tables has in front: the five words and the rows of the blocks, and beside them, as document 01 lays them, the
// blocks' signatures, W words for each. The row of a block is the next block on its chain and its filed word; the functions below are the
// one place that knows where they stand. They are for bare slices, and ask for the length alone. (A block is a number with its range in a
// clause: the range is that of the tables, so a type for it would have to hold them, and could not be had while they are stored to.)
ghost use Rattle.std.specs.Prelude.{◌≡◌, ◌*◌, ◌≤◌, ◌<◌, ℕ, length, set, replicate, ◌+◌, List};
ghost use Rattle.std.proofs.Math.Seq.{paste};
ghost use Rattle.model.specs.Wide.{number_in, signatures_in, set_words};
ghost use Rattle.model.specs.Tables.{next_at, filed_at, next_of, filed_of, signature_of};
ghost use Rattle.tables.specs.Fits.{LentFit};

mod reading;

// The next block on the block's chain, 0 at its end: the word, as document 01 has it.
pub fn next_of(links: &[u32], block: usize) -> u32
    requires { filed_at block < length links.now }
    ensures { result ≡ next_of links.now block }
{
    links[2 * block + 3]
}

// Is the block filed? The word, as document 01 has it: 1 on sound tables, 0 where it is not.
pub fn filed_of(links: &[u32], block: usize) -> u32
    requires { filed_at block < length links.now }
    ensures { result ≡ filed_of links.now block }
{
    links[2 * block + 4]
}

// Sets the next block.
pub fn set_next(links: &mut [u32], block: usize, next: u32)
    requires { filed_at block < length links.old }
    ensures { links.new ≡ set links.old (next_at block) next }
{
    let row = 2 * block;
    links[row + 3] = next;
}

// Sets the filed word.
pub fn set_filed(links: &mut [u32], block: usize, filed: u32)
    requires { filed_at block < length links.old }
    ensures { links.new ≡ set links.old (filed_at block) filed }
{
    let row = 2 * block;
    links[row + 4] = filed;
}

// The block's words: those of its number, whatever the number of blocks.
pub fn signature_of(signatures: &[u64], words: usize, block: usize) -> &[u64]
    requires { (1 ≤ block) × (block * words ≤ length signatures.now) }
    ensures long { length result.now ≡ words }
    ensures number { (B : ℕ) → block ≤ B → number_in result.now ≡ signature_of (signatures_in words B signatures.now) block }
{
    let from = (block - 1) * words;
    &signatures[from..from + words]
}

// Copies the words behind the first to where they stand in a slice of signatures. (Not inlined: where the compiler knows that the words come from
// elsewhere, it makes of the loop a call of C's `memcpy`, which not everyone who links the library has.)
#[inline(never)]
fn set_rest(signatures: &mut [u64], from: usize, signature: &[u64])
    requires { (from + length signature.now ≤ length signatures.old) × (1 ≤ length signature.now) }
    ensures { (words : List ℕ) → signatures.old ≡ paste words from signature.now 1 → length words ≡ length signatures.old → signatures.new ≡ paste words from signature.now (length signature.now) }
{
    for i in 1..signature.len() {
        signatures[from + i] = signature[i];
    }
}

// Sets the block's words. The first stands by itself: one word is not worth a call that copies.
pub fn set_signature(signatures: &mut [u64], block: usize, signature: &[u64])
    requires { (1 ≤ block) × (block * length signature.now ≤ length signatures.old) × (1 ≤ length signature.now) }
    ensures { signatures.new ≡ set_words (length signature.now) signatures.old block signature.now }
{
    let from = (block - 1) * signature.len();
    signatures[from] = signature[0];
    if 1 < signature.len() {
        set_rest(signatures, from, signature);
    }
}

// Sets the block's words to 0.
pub fn clear_signature(signatures: &mut [u64], words: usize, block: usize)
    requires { (1 ≤ block) × (block * words ≤ length signatures.old) × (1 ≤ words) }
    ensures { signatures.new ≡ set_words words signatures.old block (replicate words 0) }
{
    let from = (block - 1) * words;
    signatures[from] = 0;
    for i in 1..words {
        signatures[from + i] = 0;
    }
}

// The signatures, and links that begin with the five words and the rows; with the number of blocks, and that of a signature's words.
#[derive(Clone, Copy)]
pub struct Rows<'a> {
    pub signatures: &'a [u64],
    pub links: &'a [u32],
    pub blocks: usize,
    pub words: usize,
    pub ghost fit: { LentFit blocks words signatures.now links.now },
}
