// The settings of variables of components that are built.
ghost use Rattle.std.specs.Prelude.{◌≡◌, All, IfOk};
ghost use Rattle.dfdl_chains.specs.Chains.{chain_sites};
ghost use Rattle.dfdl_chains.specs.Settings as chains;
ghost use Rattle.dfdl_components.specs.Sites.{IsSite};
ghost use Rattle.dfdl_breaches.specs.Hidden as hidden;
ghost use Rattle.dfdl_breaches.specs.Judging as spec;

use crate::setting_list::SettingList;
use dfdl_chains::{Setter, settings_at};
use dfdl_checks::Purpose;
use dfdl_components::{Schema, Site};
use std::alloc::{AllocError, Global};

/// What opens instances of variables at a component with this chain, and then what sets variables there.
pub(crate) fn settings_of(
    alloc: Global,
    schema: &Schema,
    site: Site,
    sites: &[Site],
) -> Result<Vec<Setter>, AllocError>
    requires site { IsSite schema.now site }
    requires chain { sites.now ≡ chain_sites schema.now site }
    ensures { IfOk result (λ settings. settings.items ≡ chains.settings_at schema.now site) }
{
    let mut settings = Vec::new(alloc);
    settings_at(schema, site, sites, &mut settings)?;
    Ok(settings)
}

/// Those of a component that may hide a group.
pub(crate) fn settings_where(alloc: Global, is_hidden: bool, settings: Vec<Setter>) -> Vec<Setter>
    ensures { result.items ≡ hidden.settings_where is_hidden settings.items }
{
    if is_hidden { Vec::new(alloc) } else { settings }
}

/// Whether there are some.
pub(crate) fn are_some(settings: &Vec<Setter>) -> bool
    ensures { result ≡ spec.are_some settings.now.items }
{
    settings.len() > 0
}

/// Those that are built for a purpose.
pub(crate) fn settings_for(alloc: Global, purpose: Purpose, settings: Vec<Setter>) -> SettingList
    ensures { result ≡ spec.settings_for purpose settings.items }
{
    match purpose {
        Purpose::Parsing => SettingList::from_vec(settings),
        Purpose::Unparsing => SettingList::from_vec(Vec::new(alloc)),
    }
}
