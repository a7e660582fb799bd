// The open nests of a page.
ghost use Rattle.std.specs.Prelude.{◌≡◌, suc, length};
ghost use Rattle.model.specs.Faults.{layer_number};
ghost use Rattle.page.specs.Levels.{heads_of};

use model::fault::Layer;

/// The open nests of a page, each by the place of its head, the outermost first. The level is their number.
#[derive(Clone, Copy)]
pub enum Level {
    /// No nest is open: filter options are written.
    Root,
    /// A list of actions is open.
    Actions(usize),
    /// An action in it is open.
    Action(usize, usize),
    /// The options of that action are open.
    Options(usize, usize, usize),
}

impl Level {
    /// The layer of what is written at this level.
    pub fn layer(self) -> Layer
        ensures { layer_number result ≡ suc (length (heads_of self)) }
    {
        match self {
            Level::Root => Layer::FilterOption,
            Level::Actions(_) => Layer::Action,
            Level::Action(_, _) => Layer::ActionAttribute,
            Level::Options(_, _, _) => Layer::ActionOption,
        }
    }
}
