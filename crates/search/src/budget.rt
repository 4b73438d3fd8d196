// What a search may still do, as one number: 32 bits for nodes, 16 each for forks and blocks. So a walk hands its whole state on in one
// register, and counting down needs no sums. A fork is a node at which the query goes both ways; the compares are one more than the
// forks, so a leaf counts nothing. A search is lent a fork more than it can need: a search that has
// none left says that the tables are unfit.
ghost use Rattle.std.specs.Prelude.{◌≡◌, ◌≤◌, ◌<◌};
ghost use Rattle.search.specs.Budget.{unfit, lent, node_less, fork_less, block_less};

use std::marker::Model;

const NODE: u64 = 1;

const FORK: u64 = 4294967296;

const BLOCK: u64 = 281474976710656;

// the first number of forks that is too large
const TOO_MANY: u64 = 65536;

// The number; what contracts see of it is the record of its three counts.
#[derive(Clone, Copy)]
pub struct Budget(u64);

impl Model for Budget {
    ghost use Rattle.search.specs.Budget.{Budget, budget_of, number_of, number_back};

    ghost Value = { Budget };

    ghost view = { λ b. budget_of b.0 };

    ghost inverse = { λ l. record { 0 = number_of l } };

    ghost inverse_ok = { λ b h. number_back b.0 (λ n. record { 0 = n }) };
}

impl Budget {
    // Nothing is left: the tables are unfit. (No `None`: tried, and searches took a quarter longer, as a walk's last call is then no jump.)
    pub fn unfit() -> Budget
        ensures { result ≡ unfit }
    {
        Budget(0)
    }

    // What a search of so many blocks is lent: as many forks and blocks, and a node less.
    pub fn lend(blocks: usize) -> Budget
        requires { (1 ≤ blocks) × (blocks ≤ 65535) }
        ensures { result ≡ lent blocks }
    {
        Budget(blocks as u64 * (NODE + FORK + BLOCK) - NODE)
    }

    // The nodes that may be read.
    pub fn nodes(self) -> u64
        ensures { result ≡ self.nodes }
    {
        self.0 % FORK
    }

    // The forks left, or 0 for unfit tables.
    pub fn forks(self) -> u64
        ensures { result ≡ self.forks }
    {
        self.0 / FORK % TOO_MANY
    }

    // The blocks that may be marked.
    pub fn blocks(self) -> u64
        ensures { result ≡ self.blocks }
    {
        self.0 / BLOCK
    }

    // One node less. (Three functions for the three counts: of one that is handed what to take, the clause would name all three.)
    pub fn take_node(self) -> Budget
        requires { 0 < self.nodes }
        ensures { result ≡ node_less self }
    {
        Budget(self.0 - NODE)
    }

    // One node less, which is a fork.
    pub fn take_fork(self) -> Budget
        requires { (0 < self.nodes) × (0 < self.forks) }
        ensures { result ≡ fork_less self }
    {
        Budget(self.0 - (NODE + FORK))
    }

    // One block less.
    pub fn take_block(self) -> Budget
        requires { 0 < self.blocks }
        ensures { result ≡ block_less self }
    {
        Budget(self.0 - BLOCK)
    }
}
