//! The settings at which Git stops if they have no value.

ghost use Rattle.std.specs.Prelude.{◌≡◌, ◌↔◌, ◌⊎◌, IsTrue, codes};
ghost use Rattle.refspec_request.specs.Needed.{IsNeededOfBase, IsNeededOfBranch, IsNeededOfRemote, NeedsValue};
ghost use Rattle.refspec_request.specs.Settings.{IsKeyWhere};

use crate::settings::name_and_variable;
use refspec_io::settings::Setting;

/// Whether Git stops at a setting if it has no value, whenever it looks up a remote, of whatever remote, branch or base
/// of URLs the setting is. `remote.NAME.fetch` and `remote.NAME.push`, at which it stops too, aren't among these.
pub fn needs_value(setting: &Setting<'_>) -> bool
    ensures { IsTrue result ↔ NeedsValue setting.now.key.now }
{
    is_push_default(setting.key)
        || is_of_branch(setting.key)
        || is_of_base(setting.key)
        || is_of_remote(setting.key)
}

fn is_push_default(key: &[u8]) -> bool
    ensures { IsTrue result ↔ (key.now ≡ codes "remote.pushdefault") }
{
    key == b"remote.pushdefault".as_slice()
}

// Whether a key is one of a branch that needs a value.
fn is_of_branch(key: &[u8]) -> bool
    ensures { IsTrue result ↔ IsKeyWhere (codes "branch") (λ name variable. IsNeededOfBranch variable) key.now }
{
    match name_and_variable(b"branch", key) {
        None => false,
        Some((_, variable)) => is_needed_of_branch(variable),
    }
}

fn is_needed_of_branch(variable: &[u8]) -> bool
    ensures { IsTrue result ↔ IsNeededOfBranch variable.now }
{
    variable == b"remote".as_slice()
        || variable == b"pushremote".as_slice()
        || variable == b"merge".as_slice()
}

// Whether a key is one of a base of URLs that needs a value.
fn is_of_base(key: &[u8]) -> bool
    ensures { IsTrue result ↔ IsKeyWhere (codes "url") (λ base variable. IsNeededOfBase variable) key.now }
{
    match name_and_variable(b"url", key) {
        None => false,
        Some((_, variable)) => is_needed_of_base(variable),
    }
}

fn is_needed_of_base(variable: &[u8]) -> bool
    ensures { IsTrue result ↔ IsNeededOfBase variable.now }
{
    variable == b"insteadof".as_slice() || variable == b"pushinsteadof".as_slice()
}

// Whether a key is one of a remote that needs a value.
fn is_of_remote(key: &[u8]) -> bool
    ensures { IsTrue result ↔ IsKeyWhere (codes "remote") (λ name variable. IsNeededOfRemote variable) key.now }
{
    match name_and_variable(b"remote", key) {
        None => false,
        Some((_, variable)) => is_needed_of_remote(variable),
    }
}

fn is_needed_of_remote(variable: &[u8]) -> bool
    ensures { IsTrue result ↔ IsNeededOfRemote variable.now }
{
    variable == b"url".as_slice()
        || variable == b"pushurl".as_slice()
        || variable == b"receivepack".as_slice()
        || variable == b"uploadpack".as_slice()
        || variable == b"proxy".as_slice()
        || variable == b"proxyauthmethod".as_slice()
        || variable == b"vcs".as_slice()
        || variable == b"tagopt".as_slice()
}
