//! Heads: commands without their data blocks.
ghost use Rattle.std.specs.Prelude.{◌≡◌};
ghost use Rattle.mc_request.specs.Atoms.{head_of};

use crate::meta::MetaCommand;
use crate::parts::Atom;
use mc_text::Block;

/// A command without its data block. It has all that a reader of the reply must know.
pub type Head = Atom<()>;

impl Atom<Block> {
    /// Returns the command without its data block, which is dropped. It takes no memory.
    pub fn into_head(self) -> Head
        ensures { result ≡ head_of self }
    {
        match self {
            Atom::Get {
                key,
                exptime,
                with_cas,
            } => Atom::Get {
                key,
                exptime,
                with_cas,
            },
            Atom::Update(update) => Atom::Update(update.with_block(())),
            Atom::Meta(command) => Atom::Meta(match command {
                MetaCommand::Get { key, get } => MetaCommand::Get { key, get },
                MetaCommand::Update { update, show } => MetaCommand::Update {
                    update: update.with_block(()),
                    show,
                },
            }),
        }
    }
}
