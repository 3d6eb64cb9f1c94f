// The kinds of a rule's records, as the rule list has them.
ghost use Rattle.rewriting.specs.Clauses.{KindClause};

#[derive(Clone, Copy, Debug, PartialEq, Eq)]
pub enum Kind {
    True,
    False,
    Signal,
    And,
    Xor,
    Next,
    Until,
    Previous,
    Since,
    // A byte that is no kind. Such a record is read as since.
    Other(u8),
}

impl From<u8> for Kind {
    ghost from_gives = { KindClause };

    #[tactic(auto, unfolding(crate::specs::Decode::kind_of))]
    fn from(byte: u8) -> Kind
        ensures { KindClause byte result }
    {
        match byte {
            1 => Kind::True,
            2 => Kind::False,
            3 => Kind::Signal,
            4 => Kind::And,
            5 => Kind::Xor,
            6 => Kind::Next,
            7 => Kind::Until,
            8 => Kind::Previous,
            9 => Kind::Since,
            _ => Kind::Other(byte),
        }
    }
}
