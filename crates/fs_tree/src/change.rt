ghost use Rattle.std.specs.Prelude.{◌≡◌, ◌-◌, ◌^◌, ◌<◌, Some, None, IsSome};
ghost use Rattle.std.specs.FinMap as map;
ghost use Rattle.nfs_proto.specs.declared.answer.Answer.TheVariants.{Attr};
ghost use Rattle.fs_rules.specs.File.{fattr_of};
ghost use Rattle.fs_rules.specs.Edits.{changed_at};
ghost use Rattle.fs_decisions.specs.Steps.{Fits};

use crate::response::{Change, Response};
use fs_edits::changed;
use fs_rules::{Answer, Fattr, File, PlainTree, Stamp};

/// Puts a changed file in the place of what stands at its number: its change number rises by one, and the
/// moment of its change is `now`. The answer is what a client is told of it.
pub(crate) fn put_changed(tree: &mut PlainTree, number: u32, file: File, now: Stamp) -> Response
    requires fits { Fits file }
    requires change { file.change < 2 ^ 64 - 1 }
    requires there { IsSome (map.get tree.old.files number) }
    ensures tree { tree.new ≡ record tree.old { files = map.insert tree.old.files number (changed_at now file) } }
    ensures answer { result.answer ≡ Attr (fattr_of number (changed_at now file)) }
    ensures change { result.change ≡ Some (record { made = None }) }
{
    Response {
        answer: Answer::Attr(put_file(tree, number, file, now)),
        change: Some(Change { made: None }),
    }
}

/// Does what [`put_changed`] does, and gives what a client is told of the file.
pub(crate) fn put_file(tree: &mut PlainTree, number: u32, file: File, now: Stamp) -> Fattr
    requires fits { Fits file }
    requires change { file.change < 2 ^ 64 - 1 }
    requires there { IsSome (map.get tree.old.files number) }
    ensures tree { tree.new ≡ record tree.old { files = map.insert tree.old.files number (changed_at now file) } }
    ensures attr { result ≡ fattr_of number (changed_at now file) }
{
    let file = changed(file, now);
    let attr = file.fattr(number);
    tree.files.replace(number, file);
    attr
}
