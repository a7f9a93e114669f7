//! Connections and their requests.

use crate::flights::{last_of, place_of};
use crate::labels::{list_label, list_title, reply_label};
use groups::{ConnId, RequestId};
use layer_planner::Job;
use picture_shapes::{Asked, ConnectionFacts, JobFacts, RequestFacts};
use sessions::Batch;
use std::alloc::{AllocError, Global};
use system::System;

/// The connections of a run and their requests, and of each connection the place of its last request.
#[derive(Drop)]
pub(super) struct Requests {
    alloc: Global,
    pub(super) connections: Vec<ConnectionFacts>,
    pub(super) requests: Vec<RequestFacts>,
    last: Vec<Option<usize>>,
}

impl Requests {
    /// There is none.
    pub(super) fn new(alloc: Global) -> Self {
        Requests {
            alloc,
            connections: Vec::new(alloc),
            requests: Vec::new(alloc),
            last: Vec::new(alloc),
        }
    }

    /// Of each connection the place of its last request.
    pub(super) fn last(&self) -> &[Option<usize>] {
        self.last.as_slice()
    }

    /// The last request of a connection.
    fn last_request(&mut self, conn: ConnId) -> Option<&mut RequestFacts> {
        let number = last_of(self.last.as_slice(), conn)?;
        self.requests.get_mut(number)
    }

    /// A connection was opened.
    pub(super) fn open(&mut self, step: usize) -> Result<(), AllocError> {
        self.connections.push(ConnectionFacts {
            opened: step,
            closed: None,
        })?;
        self.last.push(None)?;
        Ok(())
    }

    /// A request was submitted, and answered if it addresses no group.
    pub(super) fn submit(
        &mut self,
        step: usize,
        id: RequestId,
        words: Vec<u8>,
        title: Vec<u8>,
        system: &System,
    ) -> Result<(), AllocError> {
        if let Some(request) = self.last_request(id.conn) {
            request.followed = Some(step);
        }
        let number = self.requests.len();
        let asked = Asked { id, number };
        self.requests.push(RequestFacts {
            asked,
            words,
            title,
            submit: step,
            settled: None,
            over: None,
            followed: None,
            starved: false,
            reply: Vec::new(self.alloc),
            stamp: None,
        })?;
        if let Some(last) = self.last.get_mut(place_of(id.conn)) {
            *last = Some(number);
        }
        self.answer(step, id.conn, system)
    }

    /// Whether the last request of a connection is answered, and how.
    fn answer(&mut self, step: usize, conn: ConnId, system: &System) -> Result<(), AllocError> {
        let Some(outcome) = system.waits(conn) else {
            return Ok(());
        };
        let reply = reply_label(self.alloc, &outcome.reply)?;
        let stamp = outcome.stamp;
        if let Some(request) = self.last_request(conn) {
            request.settled = Some(step);
            request.reply = reply;
            request.stamp = stamp;
        }
        Ok(())
    }

    /// Whether each of a layer's requests is answered, and how.
    pub(super) fn answer_all(
        &mut self,
        step: usize,
        jobs: &[JobFacts],
        system: &System,
    ) -> Result<(), AllocError> {
        for job in jobs {
            self.answer(step, job.asked.id.conn, system)?;
        }
        Ok(())
    }

    /// The requests of a layer were taken: of a list that is run it is known now how many members it has.
    pub(super) fn take(&mut self, layer: &[Job]) -> Result<(), AllocError> {
        for job in layer {
            if let Batch::Exec(members) = job.asked.batch() {
                self.name_list(job.id.conn, members.len() as u64)?;
            }
        }
        Ok(())
    }

    /// The last request of a connection runs a list of so many members.
    fn name_list(&mut self, conn: ConnId, members: u64) -> Result<(), AllocError> {
        let words = list_label(self.alloc, members)?;
        let title = list_title(self.alloc, members)?;
        if let Some(request) = self.last_request(conn) {
            request.words = words;
            request.title = title;
        }
        Ok(())
    }

    /// The requests of a layer were run, and some of them starved.
    pub(super) fn run(&mut self, jobs: &[JobFacts]) {
        for job in jobs {
            if job.starved {
                if let Some(request) = self.requests.get_mut(job.asked.number) {
                    request.starved = true;
                }
            }
        }
    }

    /// The outcome of a connection's last request was collected.
    pub(super) fn collect(&mut self, step: usize, conn: ConnId) {
        if let Some(request) = self.last_request(conn) {
            request.over = Some(step);
        }
    }

    /// A connection was closed.
    pub(super) fn close(&mut self, step: usize, conn: ConnId) {
        if let Some(connection) = self.connections.get_mut(place_of(conn)) {
            connection.closed = Some(step);
        }
        if let Some(request) = self.last_request(conn) {
            request.followed = Some(step);
            if request.over.is_none() {
                request.over = Some(step);
            }
        }
    }
}
