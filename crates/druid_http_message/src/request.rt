//! Requests.
ghost use Rattle.std.specs.Prelude.{◌≡◌, bytes_eq, string_bytes};
ghost use Rattle.druid_http_message.specs.Requests.{path_of, parameters_of};

use http::Method;
use std::marker::Model;

/// A request: its method, the target that it asks for, and its body.
#[derive(Drop)]
pub struct Request {
    method: Method,
    target: String,
    body: Vec<u8>,
}

impl Model for Request {
    ghost use Rattle.std.specs.Prelude.{string_bytes};
    ghost use Rattle.druid_http_message.specs.Requests.{RequestValue};

    ghost Value = { RequestValue };

    ghost view = { λ a. record { method = a.method; target = string_bytes a.target; body = a.body.items } };
}

// The path of a target, and its parameters.
fn parts_of(target: &str) -> (&str, &str)
    ensures path { result.0.now ≡ path_of target.now }
    ensures parameters { result.1.now ≡ parameters_of target.now }
{
    match target.split_once('?') {
        Some(parts) => parts,
        None => (target, ""),
    }
}

impl Request {
    /// A request of these parts.
    pub fn new(method: Method, target: String, body: Vec<u8>) -> Request
        ensures method { result.method ≡ method }
        ensures target { result.target ≡ string_bytes target }
        ensures body { result.body ≡ body.items }
    {
        Request {
            method,
            target,
            body,
        }
    }

    /// Its method.
    pub fn method(&self) -> &Method
        ensures { result.now ≡ self.now.method }
    {
        &self.method
    }

    /// What it asks for.
    pub fn target(&self) -> &str
        ensures { result.now ≡ self.now.target }
    {
        self.target.as_str()
    }

    /// What stands before the first `?` of its target.
    pub fn path(&self) -> &str
        ensures { result.now ≡ path_of self.now.target }
    {
        let (path, _) = parts_of(self.target());
        path
    }

    /// What follows the first `?` of its target; nothing where there is none.
    pub fn parameters(&self) -> &str
        ensures { result.now ≡ parameters_of self.now.target }
    {
        let (_, parameters) = parts_of(self.target());
        parameters
    }

    /// Whether that is its method. Letters of another case are other letters.
    pub fn has_method(&self, method: &str) -> bool
        ensures { result ≡ bytes_eq self.now.method method.now }
    {
        self.method.as_str() == method
    }

    /// Its body.
    pub fn body(&self) -> &[u8]
        ensures { result.now ≡ self.now.body }
    {
        self.body.as_slice()
    }
}
