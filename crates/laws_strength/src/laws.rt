//! The laws as clauses of functions that do nothing.
ghost use Rattle.laws_strength.specs.Laws.{SpecializesComeLast, EachSiteOnce, EachNodeAtASite, StrengthIsLivrps};

/// A listing is a strong part and then a weak one: to each node of the first a way leads without a specializes arc, to each node of the
/// second one with such an arc, however deep the arc stands.
pub fn specializes_come_last()
    ensures { SpecializesComeLast }
{}

/// Of the sites of a prim no two are of one layer stack and path.
pub fn each_site_stands_once()
    ensures { EachSiteOnce }
{}

/// Each node of a prim's listing stands at one of its sites: what is left out is a further place of a site that is kept.
pub fn each_node_stands_at_a_site()
    ensures { EachNodeAtASite }
{}

/// A node with one arc of each kind, of which none leads on: the node itself, what it inherits, its variant, its reference, its payload,
/// and last what it specializes. So it is where its arcs stand in the order in which composition follows them, and in the reverse one.
pub fn strength_is_livrps()
    ensures { StrengthIsLivrps }
{}
