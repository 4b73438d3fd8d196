// The public face as C and Rust link it, in libsigtree.a: each function of `sigtree` under its own name, with the same promise.
#![tactic(auto)]

ghost use Rattle.model.specs.PackedPromises.{PackedClear, PackedFile, PackedWithdraw, PackedRebuild, PackedSearch, PackedAudit, PackPromise, UnpackPromise};
ghost use Rattle.model.specs.PackedLists.{PackedSlip};
ghost use Rattle.sigtree.specs.Face.{lent, reported};
ghost use Rattle.model.specs.Words.{SignPromise, PlacePromise};

// Empties the index and sets its width.
#[unsafe(no_mangle)]
pub extern "C" fn sigtree_clear(
    signatures: &mut [u64],
    links: &mut [u32],
    nodes: &mut [u64],
    width: u32,
) -> u32
    ensures { PackedClear signatures.old links.old nodes.old width result signatures.new links.new nodes.new }
{
    sigtree::sigtree_clear(signatures, links, nodes, width)
}

// Files a block with its signature.
#[unsafe(no_mangle)]
pub extern "C" fn sigtree_file(
    signatures: &mut [u64],
    links: &mut [u32],
    nodes: &mut [u64],
    block: u32,
    signature: &[u64],
) -> u32
    ensures { PackedFile signatures.old links.old nodes.old block signature.now result signatures.new links.new nodes.new }
{
    sigtree::sigtree_file(signatures, links, nodes, block, signature)
}

// Takes a block out.
#[unsafe(no_mangle)]
pub extern "C" fn sigtree_withdraw(
    signatures: &mut [u64],
    links: &mut [u32],
    nodes: &mut [u64],
    block: u32,
) -> u32
    ensures { PackedWithdraw signatures.old links.old nodes.old block result signatures.new links.new nodes.new }
{
    sigtree::sigtree_withdraw(signatures, links, nodes, block)
}

// Makes the tree anew.
#[unsafe(no_mangle)]
pub extern "C" fn sigtree_rebuild(
    signatures: &[u64],
    links: &mut [u32],
    nodes: &mut [u64],
    scratch: &mut [u32],
) -> u32
    ensures { PackedRebuild signatures.now links.old nodes.old scratch.old result links.new nodes.new scratch.new }
{
    sigtree::sigtree_rebuild(signatures, links, nodes, scratch)
}

// Lists the filed blocks whose signature covers the query.
#[unsafe(no_mangle)]
pub extern "C" fn sigtree_search(
    signatures: &[u64],
    links: &[u32],
    nodes: &[u64],
    query: &[u64],
    marks: &mut [u8],
    output: &mut [u32],
    found: &mut u32,
    compares: &mut u32,
    bits: &mut u32,
) -> u32
    ensures { PackedSearch signatures.now links.now nodes.now query.now marks.old output.old (reported result found.new compares.new bits.new) marks.new output.new }
{
    sigtree::sigtree_search(
        signatures, links, nodes, query, marks, output, found, compares, bits,
    )
}

// Are the tables sound?
#[unsafe(no_mangle)]
pub extern "C" fn sigtree_audit(signatures: &[u64], links: &[u32], nodes: &[u64]) -> u32
    ensures { PackedAudit signatures.now links.now nodes.now result }
{
    sigtree::sigtree_audit(signatures, links, nodes)
}

// From tables of 5B + 2 links to packed ones.
#[unsafe(no_mangle)]
pub extern "C" fn sigtree_pack(
    signatures: &[u64],
    old: &[u32],
    links: &mut [u32],
    nodes: &mut [u64],
) -> u32
    ensures { PackPromise signatures.now old.now links.old nodes.old result links.new nodes.new }
{
    sigtree::sigtree_pack(signatures, old, links, nodes)
}

// And back.
#[unsafe(no_mangle)]
pub extern "C" fn sigtree_unpack(
    signatures: &[u64],
    links: &[u32],
    nodes: &[u64],
    old: &mut [u32],
) -> u32
    ensures { UnpackPromise signatures.now links.now nodes.now old.old result old.new }
{
    sigtree::sigtree_unpack(signatures, links, nodes, old)
}

// Carries out a slip: any bytes of any length.
#[unsafe(no_mangle)]
pub extern "C" fn sigtree_slip(
    slip: &[u8],
    signatures: &mut [u64],
    links: &mut [u32],
    nodes: &mut [u64],
    scratch: &mut [u32],
    marks: &mut [u8],
    output: &mut [u32],
    found: &mut u32,
    compares: &mut u32,
    bits: &mut u32,
) -> u32
    ensures { PackedSlip slip.now (lent signatures.old links.old nodes.old scratch.old marks.old output.old) (reported result found.new compares.new bits.new) (lent signatures.new links.new nodes.new scratch.new marks.new output.new) }
{
    sigtree::sigtree_slip(
        slip, signatures, links, nodes, scratch, marks, output, found, compares, bits,
    )
}

// Signs a text: its signature in the lent words.
#[unsafe(no_mangle)]
pub extern "C" fn sigtree_sign(text: &[u8], width: u32, k: u32, signature: &mut [u64]) -> u32
    ensures { SignPromise width k text.now signature.old result signature.new }
{
    sigtree::sigtree_sign(text, width, k, signature)
}

// Where word n of a text stands. It stands in for the splitter, whose returned part C cannot have.
#[unsafe(no_mangle)]
pub extern "C" fn sigtree_word(text: &[u8], n: u32, start: &mut usize, size: &mut usize) -> u32
    ensures { PlacePromise text.now n result start.new size.new }
{
    sigtree::sigtree_word(text, n, start, size)
}
