// The two forms of the tables. What only reads, as the audit does, is written once for both.
ghost use Rattle.std.specs.Prelude.{◌≡◌, ◌≤◌, ◌<◌, ℕ, List, [], length};
ghost use Rattle.model.specs.Packed.{unpacked};
ghost use Rattle.tables.specs.Fits.{Fits, FitsUnpacked, PartsOf};
ghost use Rattle.tables.specs.Forms.{packed_fits, packed_held, unpacked_fits, unpacked_held};
ghost use Rattle.tables.specs.Rows.{numbers};

use crate::nodes::{self, Parts};
use crate::packed::Tables;
use crate::rows::Rows;
use crate::unpacked::Unpacked;

// A form: the rows, and the nodes wherever their words live.
pub trait Form {
    // the words of the signature slice, and the numbers that they hold
    ghost words: { Self → List ℕ };

    ghost signatures: { Self → List ℕ };

    ghost links: { Self → List ℕ };

    // none where the links have the nodes
    ghost nodes: { Self → List ℕ };

    // the five words, the rows and the signatures
    fn rows(&self) -> Rows<'_>
        ensures { (numbers result ≡ signatures self.now) × (result.links.now ≡ links self.now) };

    // the node's position and its two references
    fn node(&self, node: usize) -> Parts
        requires { (1 ≤ node) × (node < length (signatures self.now)) }
        ensures { PartsOf (length (signatures self.now)) (unpacked (links self.now) (nodes self.now)) node result.position result.left result.right };

    ghost fits: { (form : Self) → Fits (signatures form) (links form) (nodes form) };

    // question 4's yes to the tables held
    ghost held_fit: { (form : Self) → FitsUnpacked (signatures form) (words form) (unpacked (links form) (nodes form)) };
}

impl<'a> Form for Tables<'a> {
    ghost words = { λ t. t.rows.signatures.now };

    ghost signatures = { λ t. numbers t.rows };

    ghost links = { λ t. t.rows.links.now };

    ghost nodes = { λ t. t.nodes.now };

    ghost fits = { λ t. packed_fits _ _ _ _ t.rows.fit.rows t.fits };

    ghost held_fit = { λ t. packed_held _ _ _ _ t.fits };

    fn rows(&self) -> Rows<'_> {
        self.rows
    }

    fn node(&self, node: usize) -> Parts {
        nodes::word_of(self.nodes, node).into()
    }
}

impl<'a> Form for Unpacked<'a> {
    ghost words = { λ t. t.rows.signatures.now };

    ghost signatures = { λ t. numbers t.rows };

    ghost links = { λ t. t.rows.links.now };

    ghost nodes = { λ t. [] };

    ghost fits = { λ t. unpacked_fits _ _ _ t.rows.fit.rows t.fits };

    ghost held_fit = { λ t. unpacked_held _ _ _ t.fits };

    fn rows(&self) -> Rows<'_> {
        self.rows
    }

    fn node(&self, node: usize) -> Parts {
        let links = self.rows.links;
        let words = 2 * self.rows.blocks() + 3 * node;
        Parts {
            position: links[words + 2],
            left: links[words + 3],
            right: links[words + 4],
        }
    }
}
