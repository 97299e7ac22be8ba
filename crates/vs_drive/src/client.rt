//! The driver of a client.

ghost use Rattle.std.specs.Prelude.{◌≡◌, ◌≤◌, ◌↔◌, ℕ, All, IfOk, IfSome, IsTrue, OnOk, OnErr, None, Some, length, replicate};
ghost use Rattle.vs_calls.specs.Progress.{may_post};
ghost use Rattle.vs_cluster.specs.Calls.{IsPostAllowed};
ghost use Rattle.vs_core.specs.Core.{means};
ghost use Rattle.vs_drive.specs.Drivers.{client_of, known_to};
ghost use Rattle.vs_drive.specs.Learning.{first_page, page_after, page_of_next, refusal, HasHeard, IsLearned};
ghost use Rattle.vs_state.specs.Plain.{plain};
ghost use Rattle.vs_state.specs.Sized.{IsSized};

use crate::posting::{first_set, further_set, if_steered};
use crate::standing::state_in;
use std::alloc::Global;
use vs_base::{BucketId, ClientNo, Ids, NoMemory, SetNo};
use vs_calls::Stage;
use vs_cluster::Cluster;
use vs_core::Core;
use vs_disk::Disk;
use vs_router::Router;
use vs_space::Cause;
use vs_state::State;
use vs_survey::page as read_page;

/// The page that a client's driver reads next.
#[derive(Clone, Copy)]
pub struct NextPage {
    pub set: SetNo,
    /// The last bucket of the page before, of the same set.
    pub after: Option<BucketId>,
}

/// The driver of a client. It learns which buckets each set has before the client's first call, a page at a time, and then follows
/// what its router has cached, which refusals correct.
#[derive(Drop)]
pub struct ClientDriver {
    client: ClientNo,
    router: Router,
    next_page: Option<NextPage>,
}

/// The first page of the set after this one, where there is one.
fn page_of_next(state: &State, set: SetNo) -> Option<NextPage>
    requires { IsSized state.now }
    ensures { result ≡ page_of_next (plain state.now) set }
{
    if set.get() >= state.set_count() {
        return None;
    }
    match SetNo::new(set.get() + 1) {
        Some(set) => Some(NextPage { set, after: None }),
        None => unreachable!(),
    }
}

/// The page after one with these buckets: of the same set, and of the next one where there are none.
fn page_after(state: &State, page: NextPage, ids: &Ids) -> Option<NextPage>
    requires { IsSized state.now }
    ensures { result ≡ page_after (plain state.now) page ids.now.items }
{
    match ids.as_slice().last() {
        Some(last) => Some(NextPage {
            set: page.set,
            after: Some(*last),
        }),
        None => page_of_next(state, page.set),
    }
}

/// The first page of all.
fn first_page() -> Option<NextPage>
    ensures { result ≡ Some first_page }
{
    let set = SetNo::new(1)?;
    Some(NextPage { set, after: None })
}

/// Why the client's call was refused, where it was and wasn't posted again.
fn refusal(state: &State, client: ClientNo) -> Option<Cause>
    ensures { result ≡ refusal ((plain state.now).client client).present }
{
    match state.client(client) {
        Some(tables) if tables.present.stage() == Stage::Refused => tables.present.cause(),
        _ => None,
    }
}

/// Whether a call at this stage is to be posted.
fn is_to_be_posted(stage: Stage) -> bool
    ensures { result ≡ may_post stage }
{
    matches!(stage, Stage::Idle | Stage::Refused)
}

impl ClientDriver {
    /// A driver that knows nothing yet.
    pub(crate) fn new(
        alloc: Global,
        client: ClientNo,
        bucket_count: u32,
    ) -> Result<ClientDriver, NoMemory>
        ensures client { IfOk result (λ driver. client_of driver ≡ client) }
        ensures knows { IfOk result (λ driver. known_to driver ≡ replicate bucket_count None) }
        ensures learns { IfOk result (λ driver. driver.next_page ≡ Some first_page) }
    {
        let router = Router::new(alloc, bucket_count)?;
        Ok(ClientDriver {
            client,
            router,
            next_page: first_page(),
        })
    }

    /// Whose driver it is.
    pub fn client(&self) -> ClientNo
        ensures { result ≡ client_of self.now }
    {
        self.client
    }

    /// The page that it is to learn next, if there is one.
    pub(crate) fn next_page(&self) -> Option<NextPage>
        ensures { result ≡ self.now.next_page }
    {
        self.next_page
    }

    /// Whether its router was made for a cluster of this size.
    fn fits(&self, state: &State) -> bool
        ensures { IsTrue result ↔ (length (known_to self.now) ≡ (plain state.now).config.bucket_count) }
    {
        self.router.buckets() == state.config.bucket_count
    }

    /// Learns a page of the buckets that a set serves. It ends learning where the set isn't of the cluster, or the router was made for
    /// another one.
    pub(crate) fn learn(&mut self, core: &Core, page: NextPage) -> Result<(), NoMemory>
        ensures client { client_of self.new ≡ client_of self.old }
        ensures learns { OnOk result (IsLearned (means core.now) page self.old self.new) }
        ensures none { OnErr result (self.new ≡ self.old) }
    {
        let state = core.state();
        if !self.fits(state) || !state.has_set(page.set) {
            self.next_page = None;
            return Ok(());
        }
        let ids = read_page(core, page.set, page.after)?;
        self.router.learn(page.set, &ids);
        self.next_page = page_after(state, page, &ids);
        Ok(())
    }

    /// Corrects the router where the client's call was refused just now.
    pub(crate) fn hear(&mut self, state: &State)
        ensures client { client_of self.new ≡ client_of self.old }
        ensures heard { HasHeard (plain state.now) self.old self.new }
    {
        let Some(cause) = refusal(state, self.client) else {
            return;
        };
        let Some(call) = state.next_call(self.client) else {
            return;
        };
        if call.bucket.get() <= self.router.buckets() {
            self.router.refused(call.bucket, cause);
        }
    }

    /// The set to which the client's call is posted now, if it is to be posted and there is one to which it may go. Where nothing is
    /// cached for a call that wasn't posted yet, the sets are searched, and what is found is cached.
    pub(crate) fn next_set<D: Disk + Drop>(
        &mut self,
        alloc: Global,
        cluster: &Cluster<D>,
    ) -> Result<Option<SetNo>, NoMemory>
        ensures client { client_of self.new ≡ client_of self.old }
        ensures allowed { IfOk result (λ to. IfSome to (IsPostAllowed cluster.now (client_of self.old))) }
    {
        let state = state_in(cluster);
        let Some(call) = state.next_call(self.client) else {
            return Ok(None);
        };
        if !is_to_be_posted(state.stage(self.client)) || !self.knows(state, call.bucket) {
            return Ok(None);
        }
        if state.tries(self.client) == 0 {
            let set = first_set(alloc, state, &mut self.router, call.bucket)?;
            return Ok(if_steered(cluster, self.client, Some(set)));
        }
        let cached = self.router.cached(call.bucket);
        Ok(further_set(cluster, self.client, cached, call))
    }

    /// Whether the bucket is one of the cluster, for which the router was made, and so is the set that is cached for it.
    fn knows(&self, state: &State, bucket: BucketId) -> bool
        ensures { IsTrue result → bucket ≤ length (known_to self.now) }
    {
        if !self.fits(state) || !state.has_bucket(bucket) {
            return false;
        }
        match self.router.cached(bucket) {
            Some(set) => state.has_set(set),
            None => true,
        }
    }
}
