ghost use Rattle.std.specs.Prelude.{◌≡◌, ◌++◌, List, [], ◌∷◌};
ghost use Rattle.appraise.specs.Records.{Measured, has_block};
ghost use Rattle.appraise.specs.Walk.{StandsFor};

/// Which indices the blocks so far have.
#[derive(Drop)]
pub struct Seen {
    table: [bool; 256],
}

impl Seen {
    /// Of no blocks.
    pub fn new() -> Seen
        ensures { StandsFor result.table [] }
    {
        Seen {
            table: [false; 256],
        }
    }

    /// Whether one of the blocks has this index.
    pub fn has(&self, index: u8) -> bool
        ensures { (blocks : List Measured) → StandsFor self.now.table blocks → result ≡ has_block index blocks }
    {
        self.table[usize::from(index)]
    }

    /// Adds a block of this index.
    pub fn add(&mut self, index: u8)
        ensures { (blocks : List Measured) (block : Measured) → block.index ≡ index → StandsFor self.old.table blocks
            → StandsFor self.new.table (blocks ++ block ∷ []) }
    {
        self.table[usize::from(index)] = true;
    }
}
