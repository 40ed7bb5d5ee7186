ghost use Rattle.std.specs.Prelude.{◌≡◌, ℕ, ◌*◌, ◌-◌, ◌^◌, ◌<◌, ◌≤◌, true, Some, OnErr, if◌then◌else◌};
ghost use Rattle.std.specs.FinMap as map;
ghost use Rattle.nfs_proto.specs.declared.answer.Answer.TheVariants.{Plain};
ghost use Rattle.nfs_proto.specs.declared.call.Call.{Call as ACall};
ghost use Rattle.fs_rules.specs.declared.file.File.{File as AFile};
ghost use Rattle.fs_rules.specs.File.{used, is_directory};
ghost use Rattle.fs_rules.specs.Good.{IsGood};
ghost use Rattle.fs_rules.specs.Respond.{respond, IsPick};
ghost use Rattle.fs_tree.specs.Creating.{found_of};
ghost use Rattle.fs_tree.specs.Meets.{Ends};
ghost use Rattle.fs_tree.specs.NewFiles.{Makes, made_with};
ghost use Rattle.fs_decisions.specs.Steps.{Fits};

use crate::response::{Change, Response};
use crate::stop::Stop;
use fs_checks::{Facts, Kind, Status};
use fs_decisions::{place_for, slots_with};
use fs_edits::{kept_at, make_file};
use fs_rules::{Answer, Content, Cred, File, Kept, PlainTree, Sattr, Stamp, handle_of};
use std::alloc::Global;

/// A file that CREATE, MKDIR or SYMLINK makes: all of it that its number does not decide.
#[derive(Debug, Drop)]
pub(crate) struct NewFile {
    pub content: Content,
    pub mode: u32,
    pub links: u32,
    pub size: u32,
    /// What the caller sets of it.
    pub set: Sattr,
    /// The links that its directory gains.
    pub gained: u32,
    /// Whether the answer tells of it.
    pub is_told: bool,
}

impl NewFile {
    // The file, at a number that keeps this.
    fn made(self, kept: Kept, cred: &Cred, now: Stamp) -> File
        requires generation { kept.generation < 2 ^ 32 - 1 }
        requires change { kept.change < 2 ^ 64 - 1 }
        ensures { result ≡ made_with kept now cred.now self }
    {
        let kind = Kind::of(&self.content);
        let facts = Facts::new_file(
            kind, kept, now, &self.set, cred, self.mode, self.links, self.size,
        );
        facts.file(self.content)
    }
}

/// Makes a file whose checks have passed, with a name of the directory `parent`, and answers the call: where
/// a limit forbids it, with that. On [`NoMemory`] the tree is as before.
pub(crate) fn make_new(
    alloc: Global,
    tree: &mut PlainTree,
    parent: u32,
    name: &[u8],
    new: NewFile,
    cred: &Cred,
    now: Stamp,
    pick: Option<u32>,
) -> Result<Response, Stop>
    requires good { IsGood tree.old }
    requires there { (d : AFile) × (map.get tree.old.files parent ≡ Some d) × (is_directory d.content ≡ true) }
    requires gained { new.gained ≤ 1 }
    requires small { new.is_told ≡ true → 8 * used new.content < 2 ^ 32 }
    ensures meets { (call : ACall) → (d : AFile) → map.get tree.old.files parent ≡ Some d → Makes tree.old call cred.now now parent d name.now new
        → (start : ℕ) → IsPick tree.old call cred.now now start pick → Ends tree.old (respond tree.old call cred.now now start) tree.new result }
    ensures err { OnErr result (tree.new ≡ tree.old) }
{
    let Some(dir) = tree.files.get(parent) else {
        return Err(Stop::Refused(Status::STALE));
    };
    let links = dir.links + new.gained;
    let slots = slots_with(&dir.content, name);
    let number = place_for(tree, dir, links, slots, new.content.used(), pick)?;
    let is_told = new.is_told;
    let file = new.made(kept_at(tree, number), cred, now);
    let generation = file.generation;
    let answer = answer_of(is_told, number, &file);
    make_file(alloc, tree, parent, name, links, number, file, now)?;
    Ok(Response {
        answer,
        change: Some(Change {
            made: Some((number, generation)),
        }),
    })
}

// What is answered of a file that was made.
fn answer_of(is_told: bool, number: u32, file: &File) -> Answer
    requires { is_told ≡ true → Fits file.now }
    ensures { result ≡ if is_told then found_of number file.now else Plain }
{
    if is_told {
        Answer::Found {
            file: handle_of(number, file.generation),
            attr: file.fattr(number),
        }
    } else {
        Answer::Plain
    }
}
