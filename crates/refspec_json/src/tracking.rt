//! What `track` finds for a remote with a name, and refs that several remotes write.

ghost use Rattle.std.specs.Prelude.{◌≡◌, ◌++◌, option_map, IfOk, OnOk};
ghost use Rattle.serde_json.specs.View.{view};
ghost use Rattle.refspec_json.specs.Objects.{ambiguous_object, line_of, line_with_remote, remote_mapping_object};

use crate::line::{text_or_null, write_value};
use serde_json::{Value, json};
use std::alloc::{AllocError, Global};

/// A mapping of a remote, with the canonical text of its spec.
#[derive(Drop)]
pub struct RemoteMapping<'a> {
    pub remote: &'a str,
    pub source: &'a str,
    pub destination: Option<&'a str>,
    pub spec: &'a str,
}

impl RemoteMapping<'_> {
    /// Appends its object and a newline.
    pub fn write_line(&self, alloc: Global, out: &mut Vec<u8>) -> Result<(), AllocError>
        ensures { OnOk result (out.new.items ≡ out.old.items ++ line_of (remote_mapping_object
            self.now.remote.now self.now.source.now
            (option_map (λ t. t.now) self.now.destination) self.now.spec.now)) }
    {
        write_value(alloc, out, &self.object(alloc)?)
    }

    fn object(&self, alloc: Global) -> Result<Value, AllocError>
        ensures { IfOk result (λ v. view v ≡ remote_mapping_object
            self.now.remote.now self.now.source.now
            (option_map (λ t. t.now) self.now.destination) self.now.spec.now) }
    {
        let destination = text_or_null(alloc, self.destination)?;
        json!(in alloc; {
            "destination": destination,
            "kind": "mapping",
            "remote": self.remote,
            "source": self.source,
            "spec": self.spec,
        })
    }
}

/// A ref that several remotes write.
#[derive(Drop)]
pub struct Ambiguous<'a> {
    pub name: &'a str,
    pub message: &'a str,
}

impl Ambiguous<'_> {
    /// Appends its object and a newline.
    pub fn write_line(&self, alloc: Global, out: &mut Vec<u8>) -> Result<(), AllocError>
        ensures { OnOk result (out.new.items ≡ out.old.items ++ line_of (ambiguous_object
            self.now.name.now self.now.message.now)) }
    {
        write_value(alloc, out, &self.object(alloc)?)
    }

    fn object(&self, alloc: Global) -> Result<Value, AllocError>
        ensures { IfOk result (λ v. view v ≡ ambiguous_object
            self.now.name.now self.now.message.now) }
    {
        json!(in alloc; {
            "kind": "ambiguous",
            "message": self.message,
            "name": self.name,
        })
    }
}

/// The line of an object with a remote as its first member, which the object hasn't. Empty for any other text.
pub fn with_remote(alloc: Global, remote: &str, line: &[u8]) -> Result<Vec<u8>, AllocError>
    ensures { IfOk result (λ made. made.items ≡ line_with_remote remote.now line.now) }
{
    let mut made = Vec::new(alloc);
    if let [b'{', members @ ..] = line {
        let remote = Value::try_from_str(alloc, remote)?.to_vec(alloc)?;
        made.extend_from_slice(b"{\"remote\":")?;
        made.extend_from_slice(remote.as_slice())?;
        made.push(b',')?;
        made.extend_from_slice(members)?;
    }
    Ok(made)
}
