//! Links among the nodes of a tree of calls.

ghost use Rattle.std.specs.Prelude.{◌≡◌};
ghost use Rattle.folded.specs.Links.{link_of, no_links, side_of as side_of_bits, with_link};

/// The links of a node: to the first node that it calls, and to two more nodes of its own caller.
#[derive(Clone, Copy)]
pub(crate) enum Side {
    Callees,
    Low,
    High,
}

/// The numbers of the nodes that a node has links to; 0 for none.
#[derive(Clone, Copy)]
pub(crate) struct Links {
    pub(crate) callees: u32,
    pub(crate) low: u32,
    pub(crate) high: u32,
}

impl Links {
    pub(crate) fn none() -> Links
        ensures { result ≡ no_links }
    {
        Links {
            callees: 0,
            low: 0,
            high: 0,
        }
    }

    pub(crate) fn get(&self, side: Side) -> u32
        ensures { result ≡ link_of side self.now }
    {
        match side {
            Side::Callees => self.callees,
            Side::Low => self.low,
            Side::High => self.high,
        }
    }

    pub(crate) fn set(&mut self, side: Side, node: u32)
        ensures { self.new ≡ with_link side node self.old }
    {
        match side {
            Side::Callees => self.callees = node,
            Side::Low => self.low = node,
            Side::High => self.high = node,
        }
    }
}

/// The side on which a function lies, by the lowest of these bits of its number.
pub(crate) fn side_of(bits: u32) -> Side
    ensures { result ≡ side_of_bits bits }
{
    if bits % 2 == 1 { Side::High } else { Side::Low }
}
