//! What the path of a target names.

ghost use Rattle.std.specs.Prelude.{◌≡◌, ◌==◌, [], get_or};
ghost use Rattle.std.specs.List.{slice_split};
ghost use Rattle.http_api.specs.Resources.{number_at as number_at_place, of_account as of_account_on, resource_of as resource_by_path, resource_on as resource_by_route, method_of, is_of_host as is_of_the_host};

use crate::route::{Route, Routes};
use desk_io::number::number_in;
use http::Method;
use std::str;

/// What a path names.
#[derive(Clone, Copy, Debug, PartialEq, Eq)]
pub enum Resource {
    /// Something that the host alone may ask for.
    Host(HostResource),
    /// Something of an account.
    Account {
        /// The account's number.
        account: u64,
        /// What of it.
        resource: AccountResource,
    },
    /// The lines of a file, to be made in an account.
    Import {
        /// The account's number.
        account: u64,
        /// The number of the batch.
        batch: u64,
    },
    /// The statement of an account for a day, from a placement on that the query names.
    Shown {
        /// The account's number.
        account: u64,
        /// The day.
        day: u64,
    },
    /// The page of a search.
    Search,
    /// The link of a placement.
    Click {
        /// The placement's number.
        placement: u64,
    },
}

/// What the host alone may ask for.
#[derive(Clone, Copy, Debug, PartialEq, Eq)]
pub enum HostResource {
    AddAccount,
    SetQuality,
    Suspend,
    /// The credit of a placement, by its number.
    Credit(u64),
    /// The numbers of a day.
    Report(u64),
}

/// What is asked for of an account by a body of JSON, or by none.
#[derive(Clone, Copy, Debug, PartialEq, Eq)]
pub enum AccountResource {
    AddCampaign,
    SetBudget,
    AddLine,
    SetBid,
    Pause,
    AddNegative,
    /// The dropping of a negative, by its number.
    DropNegative(u64),
    /// The numbers of a day.
    Report(u64),
}

impl Resource {
    /// The method that it takes.
    pub fn method(&self) -> Method
        ensures { result ≡ method_of self.now }
    {
        match self {
            Resource::Host(HostResource::Report(_))
            | Resource::Account {
                resource: AccountResource::Report(_),
                ..
            }
            | Resource::Shown { .. }
            | Resource::Search
            | Resource::Click { .. } => Method::GET,
            Resource::Host(_) | Resource::Account { .. } | Resource::Import { .. } => Method::POST,
        }
    }

    /// Whether the host alone may ask for it.
    pub fn is_of_host(&self) -> bool
        ensures { result ≡ is_of_the_host self.now }
    {
        matches!(self, Resource::Host(_))
    }
}

/// What a path names, where it has a route and its numbers are numbers.
pub fn resource_of(routes: &Routes, path: &[u8]) -> Option<Resource>
    ensures { result ≡ resource_by_path path.now }
{
    match str::from_utf8(path) {
        Ok(text) => resource_on(routes.find(text)?, path),
        Err(_) => None,
    }
}

/// What a path names by its route.
#[tactic(auto, unfolding(crate::specs::Resources::resource_on))]
fn resource_on(route: Route, path: &[u8]) -> Option<Resource>
    ensures { result ≡ resource_by_route route path.now }
{
    match route {
        Route::AddAccount => Some(Resource::Host(HostResource::AddAccount)),
        Route::SetQuality => Some(Resource::Host(HostResource::SetQuality)),
        Route::Suspend => Some(Resource::Host(HostResource::Suspend)),
        Route::Credit => {
            let placement = number_at(2, path)?;
            Some(Resource::Host(HostResource::Credit(placement)))
        }
        Route::HostReport => {
            let day = number_at(2, path)?;
            Some(Resource::Host(HostResource::Report(day)))
        }
        Route::AddCampaign => of_account(AccountResource::AddCampaign, path),
        Route::SetBudget => of_account(AccountResource::SetBudget, path),
        Route::AddLine => of_account(AccountResource::AddLine, path),
        Route::SetBid => of_account(AccountResource::SetBid, path),
        Route::Pause => of_account(AccountResource::Pause, path),
        Route::AddNegative => of_account(AccountResource::AddNegative, path),
        Route::DropNegative => {
            let negative = number_at(4, path)?;
            of_account(AccountResource::DropNegative(negative), path)
        }
        Route::Import => {
            let batch = number_at(4, path)?;
            let account = number_at(2, path)?;
            Some(Resource::Import { account, batch })
        }
        Route::Report => {
            let day = number_at(4, path)?;
            of_account(AccountResource::Report(day), path)
        }
        Route::Shown => {
            let day = number_at(4, path)?;
            let account = number_at(2, path)?;
            Some(Resource::Shown { account, day })
        }
        Route::Search => Some(Resource::Search),
        Route::Click => {
            let placement = number_at(2, path)?;
            Some(Resource::Click { placement })
        }
    }
}

/// Something of the account whose number the path has.
fn of_account(resource: AccountResource, path: &[u8]) -> Option<Resource>
    ensures { result ≡ of_account_on resource path.now }
{
    let account = number_at(2, path)?;
    Some(Resource::Account { account, resource })
}

/// The number that a segment of a path spells, by its place.
fn number_at(place: usize, path: &[u8]) -> Option<u64>
    ensures { result ≡ number_at_place place path.now }
{
    number_in(segment(place, path), 0, u64::MAX)
}

/// A segment of a path by its place, or no bytes where the path has fewer.
fn segment(place: usize, path: &[u8]) -> &[u8]
    ensures { result.now ≡ get_or (slice_split (λ byte. byte == 47) path.now) place [] }
{
    path.split(|byte| *byte == b'/').nth(place).unwrap_or(b"")
}
