//! The calls of clients as the jobs of a pool.

ghost use Rattle.std.specs.Prelude.{◌≡◌, ◌≤◌, ◌++◌, All, IfOk, OnOk, length, map};
ghost use Rattle.vs_script.specs.Calls.{calls};
ghost use Rattle.vs_reads.specs.Jobs.{read_in};
ghost use Rattle.vs_reads.specs.Reads.{client_reads, reads_of};

use std::alloc::Global;
use vs_base::{ClientNo, NoMemory};
use vs_pool::{Job, Jobs};
use vs_script::{Calls, ClientCalls};

/// Appends the calls of a client.
fn put_jobs(jobs: &mut Jobs, client: ClientNo, given: Calls) -> Result<(), NoMemory>
    requires { length given.items ≤ 200000 }
    ensures { OnOk result (map read_in jobs.new.items
        ≡ map read_in jobs.old.items ++ client_reads client (calls given.items)) }
{
    let mut number: u32 = 0;
    for call in given.into_vec() {
        number += 1;
        jobs.reserve()?;
        jobs.push(Job {
            client,
            call: number,
            bucket: call.bucket,
            ops: call.ops,
        });
    }
    Ok(())
}

/// The calls of all clients, client by client.
pub fn jobs_of(alloc: Global, clients: ClientCalls) -> Result<Jobs, NoMemory>
    requires clients { length clients.items ≤ 64 }
    requires calls { All (λ c. length c.items ≤ 200000) clients.items }
    ensures { IfOk result (λ jobs.
        map read_in jobs.items ≡ reads_of (map (λ c. calls c.items) clients.items)) }
{
    let mut jobs = Jobs::new(alloc);
    let mut number: u8 = 0;
    for given in clients.into_vec() {
        number += 1;
        let Some(client) = ClientNo::new(number) else {
            unreachable!()
        };
        put_jobs(&mut jobs, client, given)?;
    }
    Ok(jobs)
}
