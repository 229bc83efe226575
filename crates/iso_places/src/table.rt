//! The sites of all nodes of scripts, and a table of them by the nodes' paths.
ghost use Rattle.std.specs.Prelude.{◌≡◌, ◌++◌, IfOk, IfErr, MatchResult, OnOk, List, Some, ℕ, map};
ghost use Rattle.std.specs.List.{zip};
ghost use Rattle.std.specs.Map.{lookup};
ghost use Rattle.std.specs.Str.{bytes_eq};
ghost use Rattle.iso_places.specs.Located.{FindsBy, IsMissing};
ghost use Rattle.iso_places.specs.Sites.{all_sites, places_in, site_in};
ghost use Rattle.iso_places.specs.declared.site.Site.{Site};

use crate::fault::LocateError;
use crate::site::{Site, Sites};
use iso_model::text::Text;
use iso_script::place::NodePlace;
use std::alloc::{AllocError, Global};
use std::collections::BTreeMap;

/// The sites of all nodes of scripts with these places. More scripts than have numbers of 32 bits
/// count as out of memory.
pub(crate) fn all_sites(alloc: Global, places: &[Vec<NodePlace>]) -> Result<Vec<Site>, LocateError>
    ensures sites { IfOk result (λ v. v.items ≡ all_sites (places_in places.now)) }
    ensures memory { IfErr result (λ e. e ≡ LocateError.OutOfMemory) }
{
    let mut sites = Vec::new(alloc);
    'scripts: for script in 0..places.len() {
        let Ok(number) = u32::try_from(script) else {
            return Err(LocateError::OutOfMemory);
        };
        add_sites(&mut sites, number, &places[script])?;
    }
    Ok(sites)
}

/// Adds the sites of the nodes of a script.
fn add_sites(sites: &mut Vec<Site>, script: u32, places: &[NodePlace]) -> Result<(), AllocError>
    ensures { OnOk result (sites.new.items ≡ sites.old.items ++ map (site_in script) places.now) }
{
    'places: for place in places {
        sites.push(Site {
            script,
            place: *place,
        })?;
    }
    Ok(())
}

/// The sites of nodes by their paths. Of several with one path it has the first.
pub(crate) fn sites_by_path<'a>(
    alloc: Global,
    paths: &'a [Text],
    sites: &[Site],
) -> Result<BTreeMap<&'a str, Site>, AllocError>
    ensures { IfOk result (λ table. FindsBy table (zip paths.now sites.now)) }
{
    let mut table = BTreeMap::new(alloc);
    'nodes: for node in (0..paths.len().min(sites.len())).rev() {
        table.insert(paths[node].as_str(), sites[node])?;
    }
    Ok(table)
}

/// The sites of nodes with these paths. One that isn't in the table is `NoPlace`.
pub(crate) fn sites_of(
    alloc: Global,
    table: &BTreeMap<&str, Site>,
    paths: &[Text],
) -> Result<Sites, LocateError>
    ensures found { (entries : List (List ℕ × Site)) → FindsBy table.now entries
        → IfOk result (λ sites. map Some sites
        ≡ map (λ path. lookup (bytes_eq path) entries) paths.now) }
    ensures missing { (entries : List (List ℕ × Site)) → FindsBy table.now entries
        → IfErr result (IsMissing entries paths.now) }
{
    let mut sites = Vec::with_capacity(alloc, paths.len())?;
    'paths: for path in paths {
        let Some(site) = table.get(path.as_str()) else {
            return Err(LocateError::NoPlace);
        };
        sites.push(*site)?;
    }
    Ok(Sites::new(sites))
}
