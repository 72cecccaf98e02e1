// What holds of each search.
ghost use Rattle.lp_model.specs.Lawful.{IsLawful};
ghost use Rattle.branch_tree.specs.Numbered.{IsNumbered};
ghost use Rattle.sound_searches.specs.Sound.{IsSound};

use tree_edit::Search;

/// What holds of each search, and what contracts may use of it after this call.
pub(crate) fn show_sound(search: &Search)
    ensures sound { IsSound search.now }
    ensures numbered { IsNumbered search.now.tree }
    ensures lawful { IsLawful search.now.model }
{
    let _sound = search.points();
    let _numbered = search.tree().nodes();
    let _lawful = search.model().cols();
}
