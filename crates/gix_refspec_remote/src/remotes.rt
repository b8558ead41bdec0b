//! The fetch specs that Git writes for a remote, and those of reviews.

ghost use Rattle.std.specs.Prelude.{◌≡◌, ◌≢◌, codes, Some, IfErr, IfOk};
ghost use Rattle.bstr.specs.BStr.{bstr_bytes};
ghost use Rattle.gix_refspec_text.specs.Texts.Words.{BeginsWith};
ghost use Rattle.gix_refspec_text.specs.Specs.Grammar.{fetched};
ghost use Rattle.gix_refspec_text.specs.Specs.Reading.{Forced};
ghost use Rattle.gix_refspec_text.specs.Views.Spec.{owned_reading_of};
ghost use Rattle.gix_refspec_remote.specs.Parts.{IsNoSpec};
ghost use Rattle.gix_refspec_remote.specs.Remotes.{branch_destination, branch_source, reviews_destination, reviews_source};

use crate::parts::{PartsError, Sign, SpecParts, from_parts};
use bstr::BStr;
use gix_refspec_text::RefSpec;
use gix_refspec_text::parsing::Operation;
use gix_refspec_text::side::joined;
use std::alloc::Global;

/// Where a remote's refs are stored.
#[derive(Clone, Copy, Debug)]
pub enum Storage<'a> {
    /// Branches in the folder `refs/remotes/<name>/` of this remote, as after `git remote add <name>`.
    Tracking(BStr<'a>),
    /// All refs under their own names, as after `git remote add --mirror=fetch`.
    Mirror,
}

/// A host of reviews, whose refs have the commits to review.
#[derive(Clone, Copy, Debug, PartialEq, Eq)]
pub enum Reviews {
    /// `refs/pull/<number>/head`, as GitHub has them.
    PullRequests,
    /// `refs/merge-requests/<number>/head`, as GitLab has them.
    MergeRequests,
}

/// The spec that Git writes for a branch, by git-remote(1): `+refs/heads/<branch>:refs/remotes/<remote>/<branch>`, and
/// for a mirror `+refs/<branch>:refs/<branch>`, so that a branch is `heads/<name>` there.
///
/// `git remote add` writes it for `*` without `-t`, and otherwise for each `-t <branch>`; `git remote set-branches` does
/// for each branch, as for a mirror only if `remote.<name>.mirror` is true. Git checks the remote's name alone. Here
/// whatever makes no spec is refused, as by `from_parts`. Fails if memory runs out.
pub fn branch_spec(
    alloc: Global,
    storage: Storage<'_>,
    branch: BStr<'_>,
) -> Result<RefSpec, PartsError>
    ensures ok { IfOk result (λ spec. owned_reading_of spec ≡ fetched Forced
        (branch_source storage.entry (bstr_bytes branch.entry))
        (Some (branch_destination storage.entry (bstr_bytes branch.entry)))) }
    ensures refused { IfErr result (λ e. e ≢ PartsError.Memory → IsNoSpec Operation.Fetch Forced
        (branch_source storage.entry (bstr_bytes branch.entry))
        (Some (branch_destination storage.entry (bstr_bytes branch.entry))) e) }
{
    match storage {
        Storage::Tracking(remote) => {
            let source = joined(alloc, b"refs/heads/", branch.as_bytes(), b"")?;
            let below = joined(alloc, remote.as_bytes(), b"/", branch.as_bytes())?;
            let destination = joined(alloc, b"refs/remotes/", below.as_bstr().as_bytes(), b"")?;
            forced(alloc, source.as_bstr(), destination.as_bstr())
        }
        Storage::Mirror => {
            let name = joined(alloc, b"refs/", branch.as_bytes(), b"")?;
            forced(alloc, name.as_bstr(), name.as_bstr())
        }
    }
}

/// The spec that fetches all reviews of a host: `+refs/pull/*/head:refs/remotes/<remote>/pr/*`, or
/// `+refs/merge-requests/*/head:refs/remotes/<remote>/merge-requests/*`. It fails as `branch_spec` does, but for no name of
/// a remote that Git accepts.
pub fn reviews_spec(
    alloc: Global,
    reviews: Reviews,
    remote: BStr<'_>,
) -> Result<RefSpec, PartsError>
    ensures ok { IfOk result (λ spec. owned_reading_of spec ≡ fetched Forced
        (reviews_source reviews) (Some (reviews_destination reviews (bstr_bytes remote.entry)))) }
    ensures refused { IfErr result (λ e. e ≢ PartsError.Memory → IsNoSpec Operation.Fetch Forced
        (reviews_source reviews) (Some (reviews_destination reviews (bstr_bytes remote.entry))) e) }
{
    match reviews {
        Reviews::PullRequests => {
            let destination = joined(alloc, b"refs/remotes/", remote.as_bytes(), b"/pr/*")?;
            forced(alloc, BStr::new(b"refs/pull/*/head"), destination.as_bstr())
        }
        Reviews::MergeRequests => {
            let destination = joined(
                alloc,
                b"refs/remotes/",
                remote.as_bytes(),
                b"/merge-requests/*",
            )?;
            let source = BStr::new(b"refs/merge-requests/*/head");
            forced(alloc, source, destination.as_bstr())
        }
    }
}

// The forced fetch from one name or pattern to another, both in `refs/`.
fn forced(alloc: Global, source: BStr<'_>, destination: BStr<'_>) -> Result<RefSpec, PartsError>
    requires source { BeginsWith (codes "refs/") (bstr_bytes source) }
    requires destination { BeginsWith (codes "refs/") (bstr_bytes destination) }
    ensures ok { IfOk result (λ spec. owned_reading_of spec ≡
        fetched Forced (bstr_bytes source.entry) (Some (bstr_bytes destination.entry))) }
    ensures refused { IfErr result (λ e. e ≢ PartsError.Memory → IsNoSpec Operation.Fetch Forced
        (bstr_bytes source.entry) (Some (bstr_bytes destination.entry)) e) }
{
    from_parts(
        alloc,
        SpecParts {
            operation: Operation::Fetch,
            sign: Sign::Plus,
            source,
            destination: Some(destination),
        },
    )
}
