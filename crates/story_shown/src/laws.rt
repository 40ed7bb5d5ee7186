//! Laws of the story of a cluster, by the machine in which it shows.
ghost use Rattle.story_shown.specs.History.{ToldStoriesAreFlat};
ghost use Rattle.story_shown.specs.Messages.{PostedAreFit};
ghost use Rattle.story_shown.specs.Fits.{StoriesFit, PreparesAreTold, CellsAreTheBytes};

/// There is a table that fits a story.
pub fn stories_fit()
    ensures { StoriesFit }
{}

/// Each `prepare` that was posted tells its receiver the participants and the items that the table has.
pub fn prepares_are_told()
    ensures { PreparesAreTold }
{}

/// The machine's flat memory has in each cell the byte of the story's, at each place of the history.
pub fn cells_are_the_bytes()
    ensures { CellsAreTheBytes }
{}

/// Whatever has happened to a cluster since it was formatted, it is one flat memory: decisions agree, each change of the
/// history matches the memory to which it is applied, each Committed outcome read the memory at a place of the history,
/// and a change its own; no refused identifier commits; and memory nodes hold this memory but for what is locked.
pub fn told_stories_are_flat()
    ensures { ToldStoriesAreFlat }
{}

/// Each message that was posted to a memory node is one that it may be sent.
pub fn posted_are_fit()
    ensures { PostedAreFit }
{}
