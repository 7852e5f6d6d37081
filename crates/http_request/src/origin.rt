//! The origins at which a docket is served.
ghost use Rattle.std.specs.Prelude.{◌≡◌, ◌++◌, ◌∷◌, [], map, IfOk, OnOk, option_copied, string_bytes};
ghost use Rattle.http_request.specs.Origins.{AreGuardedAt, AreShownAt, listed, origin_at as origin_by_port, origins_at as origins_by_port};

use crate::page::Routes;
use std::alloc::{AllocError, Global};

/// The port of HTTP, which an origin leaves out.
const HTTP: u16 = 80;

// The origin of a name of this machine.
fn origin_at(alloc: Global, name: &str, port: u16) -> Result<String, AllocError>
    ensures { IfOk result (λ origin. string_bytes origin ≡ origin_by_port name.now port) }
{
    if port == HTTP {
        format!(in alloc; "http://{name}")
    } else {
        format!(in alloc; "http://{name}:{port}")
    }
}

fn push(origins: &mut Vec<String>, origin: String) -> Result<(), AllocError>
    ensures { OnOk result (map string_bytes origins.new.items ≡ map string_bytes origins.old.items ++ string_bytes origin ∷ []) }
{
    origins.push(origin)?;
    Ok(())
}

fn push_other(
    alloc: Global,
    origins: &mut Vec<String>,
    other: Option<&str>,
) -> Result<(), AllocError>
    ensures { OnOk result (map string_bytes origins.new.items ≡ map string_bytes origins.old.items ++ listed (option_copied other.entry)) }
{
    match other {
        None => Ok(()),
        Some(origin) => push(origins, String::from_str(alloc, origin)?),
    }
}

// The origins at a port of this machine, and another one where that is given.
fn origins_at(alloc: Global, port: u16, other: Option<&str>) -> Result<Vec<String>, AllocError>
    ensures { IfOk result (λ origins. map string_bytes origins.items ≡ origins_by_port port (option_copied other.entry)) }
{
    let mut origins = Vec::new(alloc);
    push(&mut origins, origin_at(alloc, "127.0.0.1", port)?)?;
    push(&mut origins, origin_at(alloc, "localhost", port)?)?;
    push(&mut origins, origin_at(alloc, "[::1]", port)?)?;
    push_other(alloc, &mut origins, other)?;
    Ok(origins)
}

impl Routes {
    /// The routes of the docket, which are served at a port of this machine alone, and at another origin where
    /// that is given, as `https://docket.example` of a proxy.
    pub fn guarded(alloc: Global, port: u16, other: Option<&str>) -> Result<Routes, AllocError>
        ensures { IfOk result (AreGuardedAt port (option_copied other.entry)) }
    {
        Ok(Routes::Guarded(origins_at(alloc, port, other)?))
    }

    /// Those and the pages, at the same origins.
    pub fn with_pages(alloc: Global, port: u16, other: Option<&str>) -> Result<Routes, AllocError>
        ensures { IfOk result (AreShownAt port (option_copied other.entry)) }
    {
        Ok(Routes::WithPages(origins_at(alloc, port, other)?))
    }
}
