// Ticket K4's public call. It has no `requires`: any text ends with the names of its components or with a refusal.
#![tactic(auto)]

ghost use Rattle.lexicon_names.specs.NamesText.{NamesText};

use cd::CdError;
use group_names::Groups;

// The name and the group's order of each component of a text's diagram, or what refuses them.
pub fn names(text: &[u8], wish: bool) -> Result<Groups, CdError>
    ensures { NamesText wish text.now result }
{
    let cd = builder::parse(text, wish)?;
    group_search::groups(cd)
}
