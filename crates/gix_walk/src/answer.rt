//! Answers to questions about a repository.
use crate::failure::Failure;
use crate::graph::{check, rows, rows_of, warn};
use crate::lines::Lines;
use crate::named::{are_listed, named};
use crate::paged::Paged;
use crate::progress::Progress;
use gix_certificate::Rows;
use gix_commands::Fault;
use gix_commitgraph::Graph;
use gix_gather::{Gathering, Order};
use gix_hash::Keys;
use gix_hash::hashtable::IdSet;
use gix_odb::{Front, Odb};
use gix_options::{Asked, Name, Options, Place, Question, read_lines};
use gix_output::{Shape, json_line};
use gix_questions::{Chosen, choose_from, resolve_words, status};
use gix_records::{NamedObjects, READS, read_to_end};
use gix_repository::Repository;
use gix_repository_commands::{Part, answer as answer_from_part};
use gix_revision::steps::StepFault;
use gix_revision::{Resolved, quoted};
use gix_words::Command;
use std::alloc::AllocError;
use std::io::Write;

/// How many digits stand for an object whose id begins so, at the least.
const FEWEST_DIGITS: usize = 4;
/// Of how many pairs the common ancestors are looked for by pages.
const MOST_PAIRS: usize = 16;
/// How many lines are few: the commits that they need are read in less time than the rows of a long history.
const FEW_LINES: usize = 1000;

/// What a question is answered from.
struct Asking<'a> {
    rt: &'a HostRuntime,
    keys: Keys,
    question: &'a Question,
    chosen: Chosen,
    progress: Progress<'a>,
    rows: Rows,
}

impl<'a> Drop for Asking<'a> {
    fn drop(self) {
        let Asking {
            rt: _,
            keys: _,
            question: _,
            chosen: _,
            progress: _,
            rows: _,
        } = self;
    }
}

/// How a question was answered.
pub(crate) struct Answered {
    /// The status.
    pub status: u8,
    /// Which rows were used.
    pub rows: Rows,
    /// The words of the command over ids, where a certificate is asked for.
    pub words: Vec<String>,
}

impl Answered {
    /// The words alone.
    pub(crate) fn into_words(self) -> Vec<String> {
        let Answered {
            status: _,
            rows: _,
            words,
        } = self;
        words
    }
}

impl Drop for Answered {
    fn drop(self) {
        let Answered {
            status: _,
            rows: _,
            words: _,
        } = self;
    }
}

/// Answers a question, and gives the status.
pub(crate) fn answer<W: Write>(
    rt: &HostRuntime,
    keys: Keys,
    question: &Question,
    output: &mut W,
) -> Result<u8, Failure> {
    let mut repository = open(rt, &question.place)?;
    if question.name == Name::CheckGraph {
        return check(rt, &mut repository, output);
    }
    let answered = answer_in(rt, keys, &mut repository, question, output)?;
    Ok(answered.status)
}

/// Answers a question in its repository.
fn answer_in<W: Write>(
    rt: &HostRuntime,
    keys: Keys,
    repository: &mut Repository<HostRuntime>,
    question: &Question,
    output: &mut W,
) -> Result<Answered, Failure> {
    let lines = input_lines(rt, question)?;
    let resolved = resolve(rt, repository, question, lines.as_slice())?;
    answer_from(rt, keys, repository, question, resolved, output)
}

/// Opens the repository of a place.
pub(crate) fn open(rt: &HostRuntime, place: &Place) -> Result<Repository<HostRuntime>, Failure> {
    let mut repository = match place {
        Place::Folder(folder) => Repository::discover(rt, folder.as_str())?,
        Place::GitDir(folder) => Repository::open(rt, folder.as_str())?,
    };
    notice(rt, &mut repository)?;
    Ok(repository)
}

/// Answers a question from what its revisions stand for.
pub(crate) fn answer_from<W: Write>(
    rt: &HostRuntime,
    keys: Keys,
    repository: &mut Repository<HostRuntime>,
    question: &Question,
    resolved: Vec<Resolved>,
    output: &mut W,
) -> Result<Answered, Failure> {
    let chosen = choose_from(rt.alloc(), question, resolved)?;
    let mut lines = Lines::new(rt.alloc(), output, question);
    let asks_of_others = matches!(
        question.name,
        Name::Contains | Name::Containing | Name::MergeBase
    );
    let writes_hidden = question.name == Name::Resolve && !chosen.hidden.is_empty();
    if chosen.tips.is_empty() && !writes_hidden || asks_of_others && chosen.tips.len() < 2 {
        if question.options.counts {
            write(&mut lines, b"0\n")?;
        }
        return Ok(Answered {
            status: status(question.name, chosen.tips.len(), b""),
            rows: Rows::Unused,
            words: words_of(rt, keys, question, &chosen)?,
        });
    }
    let mut asking = Asking {
        rt,
        keys,
        question,
        chosen,
        progress: Progress::new(rt),
        rows: Rows::Unused,
    };
    let answered = match question.name {
        Name::Files => asking.files(repository, &mut lines),
        _ => asking.commits(repository, &mut lines),
    };
    match answered {
        Ok(status) => Ok(Answered {
            status,
            rows: asking.rows,
            words: words_of(rt, keys, question, &asking.chosen)?,
        }),
        // A line that there is no memory for isn't written.
        Err(_) if lines.ran_out() => Err(Failure::Command(Fault::Memory)),
        Err(failure) => Err(missing_of_clone(repository, &question.options, failure)),
    }
}

/// The words of the command that a question has become, where a certificate keeps them.
fn words_of(
    rt: &HostRuntime,
    keys: Keys,
    question: &Question,
    chosen: &Chosen,
) -> Result<Vec<String>, AllocError> {
    if question.options.certificate.is_none() {
        return Ok(Vec::new(rt.alloc()));
    }
    chosen.words(rt.alloc(), keys, question)
}

/// The failure, where what isn't there of a shallow or partial clone is called so. `--border` is named where it isn't given and goes with
/// what is.
fn missing_of_clone(
    repository: &Repository<HostRuntime>,
    options: &Options,
    failure: Failure,
) -> Failure {
    let border = if options.takes_border || options.give_text() {
        ""
    } else {
        "--border takes its border as the beginning, "
    };
    match &failure {
        Failure::Command(Fault::Missing(id)) if !repository.shallow().is_empty() => {
            Failure::Shallow(*id, border)
        }
        Failure::Command(Fault::Missing(id)) if repository.is_partial() => Failure::Partial(*id),
        _ => failure,
    }
}

/// The lines of standard input, where a question asks for them.
pub(crate) fn input_lines(rt: &HostRuntime, question: &Question) -> Result<Vec<String>, Failure> {
    let alloc = rt.alloc();
    if !takes_lines(question) {
        return Ok(Vec::new(alloc));
    }
    let text = read_to_end(alloc, &mut rt.stdin(), READS)?;
    Ok(read_lines(alloc, text.as_slice())?)
}

/// Whether a question asks for the lines of standard input.
pub(crate) fn takes_lines(question: &Question) -> bool {
    question
        .asked
        .iter()
        .any(|asked| matches!(asked, Asked::Lines))
}

/// Reads what the revisions of a question stand for, and says which are called so that several refs have the name. With `--verbose` it says
/// of each what it stands for. The lines of standard input are `lines`.
pub(crate) fn resolve(
    rt: &HostRuntime,
    repository: &mut Repository<HostRuntime>,
    question: &Question,
    lines: &[String],
) -> Result<Vec<Resolved>, Failure> {
    let resolved = match resolve_words(rt.alloc(), repository, question, lines) {
        Ok(resolved) => resolved,
        Err(fault) => return Err(lacking_of_clone(rt, repository, Failure::from(fault))),
    };
    for ambiguous in repository.ambiguous().iter() {
        let word = &ambiguous.word;
        let name = &ambiguous.name;
        let _ = eprintln!(rt; "gix_walk: several refs are called {word:?}: {name:?} is taken");
    }
    for one in resolved.iter() {
        if question.options.is_verbose {
            say(rt, one)?;
        }
        say_hidden(rt, repository, one.word.as_str())?;
    }
    Ok(resolved)
}

/// The failure, where a revision stands for what isn't there of a shallow or partial clone.
fn lacking_of_clone(
    rt: &HostRuntime,
    repository: &Repository<HostRuntime>,
    failure: Failure,
) -> Failure {
    let is_missing = match &failure {
        Failure::Revision(gix_revision::Fault::Steps { fault, .. }) => {
            matches!(fault, StepFault::Missing(_))
        }
        _ => false,
    };
    let why = if !is_missing {
        return failure;
    } else if !repository.shallow().is_empty() {
        "the clone is shallow, and its history ends here. git fetch --unshallow fetches the rest"
    } else if repository.is_partial() {
        "the clone is partial, and nothing is fetched here. git fetch --refetch --no-filter fetches what is missing"
    } else {
        return failure;
    };
    match format!(in rt.alloc(); "{failure}") {
        Ok(said) => Failure::Lacking(said, why),
        Err(_) => failure,
    }
}

/// Says that a ref is called as the id of an object begins, so that these digits don't stand for the object.
fn say_hidden(
    rt: &HostRuntime,
    repository: &mut Repository<HostRuntime>,
    word: &str,
) -> Result<(), Failure> {
    if word.len() < FEWEST_DIGITS || word.len() >= repository.kind().len_in_hex() {
        return Ok(());
    }
    let Some(front) = Front::new(word.as_bytes()) else {
        return Ok(());
    };
    if repository.find_short(word.as_bytes())?.is_none() {
        return Ok(());
    }
    let others = repository.odb.ids_from(&front, 1)?;
    if let Some(other) = others.as_slice().first() {
        let _ = eprintln!(rt;
            "gix_walk: {word:?} is a ref, and the id {other} begins so too: the ref is taken"
        );
    }
    Ok(())
}

/// Says what a revision stands for.
fn say(rt: &HostRuntime, resolved: &Resolved) -> Result<(), AllocError> {
    let word = quoted(rt.alloc(), resolved.word.as_str())?;
    let _ = match resolved.chosen {
        gix_revision::Chosen::One { id, is_hidden } => {
            let mark = if is_hidden { "^" } else { "" };
            eprintln!(rt; "gix_walk: {mark}{word:?} is {id}")
        }
        gix_revision::Chosen::Symmetric { one, other } => {
            eprintln!(rt; "gix_walk: {word:?} is {one}, with {other} behind ...")
        }
    };
    Ok(())
}

/// Says what git would follow and the program doesn't.
fn notice(rt: &HostRuntime, repository: &mut Repository<HostRuntime>) -> Result<(), Failure> {
    if repository.has_grafts() {
        let _ = eprintln!(rt;
            "gix_walk: info/grafts is ignored: a commit's parents are those that it names"
        );
    }
    for file in repository.odb.unread_alternates() {
        let _ = eprintln!(rt; "gix_walk: {file:?} isn't read: too many repositories lead to it");
    }
    let count = repository.count_replacements()?;
    if count > 0 {
        let _ = eprintln!(rt;
            "gix_walk: replacements are ignored, of which there are {count}: each object is taken as it is stored"
        );
    }
    Ok(())
}

impl Asking<'_> {
    /// Lists the entries of a tree.
    fn files<W: Write>(
        &mut self,
        repository: &mut Repository<HostRuntime>,
        output: &mut W,
    ) -> Result<u8, Failure> {
        let alloc = self.rt.alloc();
        let Some(command) = self.command()? else {
            return Ok(0);
        };
        let mut part = Part::of_command(alloc, self.keys, &command, None)?;
        part.read_all(&mut repository.odb, None, &mut self.progress)?;
        gix_commands::answer(alloc, &command, part.gathering.objects(), None, output)?;
        Ok(0)
    }

    /// The command over ids that answers the question.
    fn command(&self) -> Result<Option<Command>, AllocError> {
        self.chosen
            .command(self.rt.alloc(), self.keys, self.question)
    }

    /// Answers a question about commits, over the rows that may be used.
    fn commits<W: Write>(
        &mut self,
        repository: &mut Repository<HostRuntime>,
        output: &mut W,
    ) -> Result<u8, Failure> {
        if let Some(status) = self.few_lines(repository, output)? {
            return Ok(status);
        }
        if let Some(status) = self.by_pages(repository, output)? {
            return Ok(status);
        }
        let known = rows(
            self.rt,
            repository,
            &self.question.options,
            self.reads_all(),
        )?;
        let answered = match &known.graph {
            Some(graph) => self.over_rows(repository, graph, output),
            None => self.over(repository, None, output),
        };
        if known.is_unchecked && (self.question.options.is_verbose || self.progress.is_long()) {
            let rt = self.rt;
            let _ = eprintln!(rt;
                "gix_walk: nobody has checked git's commit-graph; after check-graph such a question reads only the newest commits"
            );
        }
        answered
    }

    /// Answers a question about commits over rows, or without them where they are refused.
    fn over_rows<W: Write>(
        &mut self,
        repository: &mut Repository<HostRuntime>,
        graph: &Graph,
        output: &mut W,
    ) -> Result<u8, Failure> {
        let hidden = self.chosen.hidden.len();
        let answered = self.over(repository, Some(graph), output);
        match &answered {
            Err(failure) if is_refusal(failure) => {
                warn(self.rt, failure);
                // What these rows say of pairs isn't used either.
                self.chosen.hidden.truncate(hidden);
                self.over(repository, None, output)
            }
            _ => answered,
        }
    }

    /// Answers a question about commits over these rows.
    fn over<W: Write>(
        &mut self,
        repository: &mut Repository<HostRuntime>,
        graph: Option<&Graph>,
        output: &mut W,
    ) -> Result<u8, Failure> {
        let alloc = self.rt.alloc();
        if self.question.name == Name::Resolve && self.chosen.pairs.is_empty() {
            return Ok(self.write_ids(output)?);
        }
        self.rows = match graph {
            Some(_) => rows_of(&self.question.options),
            None => Rows::Unused,
        };
        let least = self.least();
        let order = match self.question.name {
            Name::Newest | Name::Contains | Name::IsAncestor if least.is_some() =>
                Order::NewestFirst,
            Name::Oldest if least.is_some() => Order::OldestFirst,
            _ => Order::Met,
        };
        let ids = self.chosen.all(alloc)?;
        let border = IdSet::new(alloc, self.keys);
        let gathering = Gathering::commits(alloc, ids.as_slice(), order, border)?;
        let mut part = Part::of(alloc, gathering, least);
        if least.is_none() {
            part.read_all(&mut repository.odb, graph, &mut self.progress)?;
            return self.finish(repository, &mut part, graph, output);
        }
        let lines = self.from_part(repository, &mut part, graph, output)?;
        Ok(self.status(lines.as_slice()))
    }

    /// Answers a question for few lines from the commits alone, without rows. None if it isn't such a question, or has no such answer, as
    /// where a commit has a row and can't be read: then nothing is written.
    fn few_lines<W: Write>(
        &mut self,
        repository: &mut Repository<HostRuntime>,
        output: &mut W,
    ) -> Result<Option<u8>, Failure> {
        match self.least() {
            Some(least)
                if least <= FEW_LINES
                    && !self.asks_what_is_reached()
                    && !self.leaves_some_out()
                    && !self.question.options.takes_border => {}
            _ => return Ok(None),
        }
        let mut lines = Vec::new(self.rt.alloc());
        match self.over(repository, None, &mut lines) {
            Ok(status) => {
                write(output, lines.as_slice())?;
                Ok(Some(status))
            }
            // Another way needs memory too.
            Err(failure) if is_want_of_memory(&failure) => Err(failure),
            Err(_) => Ok(None),
        }
    }

    /// Answers a question that may need few rows of a commit-graph from these, which are read by pages. None if they aren't enough: then
    /// nothing is written.
    fn by_pages<W: Write>(
        &mut self,
        repository: &mut Repository<HostRuntime>,
        output: &mut W,
    ) -> Result<Option<u8>, Failure> {
        let options = &self.question.options;
        if options.takes_border || !self.needs_few_rows() {
            return Ok(None);
        }
        let Some(mut paged) = Paged::open(self.rt, self.keys, repository, options)? else {
            return Ok(None);
        };
        let hidden = self.chosen.hidden.len();
        let lines = self.lines_by_pages(&mut repository.odb, &mut paged)?;
        let Some(lines) = lines else {
            self.chosen.hidden.truncate(hidden);
            return Ok(None);
        };
        self.chosen.pairs.clear();
        self.rows = rows_of(&self.question.options);
        if self.question.name == Name::Resolve {
            return Ok(Some(self.write_ids(output)?));
        }
        self.write_lines(lines.as_slice(), output)?;
        Ok(Some(self.status(lines.as_slice())))
    }

    /// Whether few rows may be enough: something is hidden, two commits or more are compared, or an order by generations has a limit.
    fn needs_few_rows(&self) -> bool {
        match self.question.name {
            Name::Ahead | Name::Contains | Name::Containing | Name::MergeBase | Name::IsAncestor =>
                { true }
            Name::Resolve => !self.chosen.pairs.is_empty(),
            name => {
                !self.chosen.hidden.is_empty()
                    || !self.chosen.pairs.is_empty()
                    || matches!(name, Name::Topo | Name::Date)
                        && self.question.options.limit.is_some()
            }
        }
    }

    /// The lines that few rows show, where the best common ancestors of each pair are hidden: none of `resolve`.
    fn lines_by_pages(
        &mut self,
        odb: &mut Odb<HostRuntime>,
        paged: &mut Paged<'_>,
    ) -> Result<Option<Vec<u8>>, Failure> {
        let alloc = self.rt.alloc();
        let options = &self.question.options;
        if self.question.name != Name::Ahead {
            if self.chosen.pairs.len() > MOST_PAIRS {
                return Ok(None);
            }
            for pair in self.chosen.pairs.iter() {
                if !paged.add_common(odb, pair, options, &mut self.chosen.hidden)? {
                    return Ok(None);
                }
            }
        }
        if self.question.name == Name::Resolve {
            return Ok(Some(Vec::new(alloc)));
        }
        let Some(command) = self.command()? else {
            return Ok(None);
        };
        let ids = self.chosen.all(alloc)?;
        paged.lines(odb, &command, ids.as_slice(), options)
    }

    /// Whether the question is which revisions a revision reaches.
    fn asks_what_is_reached(&self) -> bool {
        matches!(self.question.name, Name::Contains | Name::IsAncestor)
    }

    /// How many commits are read at the least, where a part of them may be enough: one for each line that is asked for, and for each that is
    /// skipped, or for each revision of `contains` and `is-ancestor`.
    fn least(&self) -> Option<usize> {
        if self.asks_what_is_reached() {
            return Some(self.chosen.tips.len());
        }
        let is_by_one_step = match self.question.name {
            Name::Breadth | Name::Newest | Name::Oldest => true,
            _ => false,
        };
        if !is_by_one_step || !self.chosen.hidden.is_empty() || !self.chosen.pairs.is_empty() {
            return None;
        }
        let skip = self.question.options.skip.unwrap_or(0);
        Some(self.question.options.limit?.saturating_add(skip) as usize)
    }

    /// Whether each commit is read in any case, as for the texts of all that the tips reach.
    fn reads_all(&self) -> bool {
        let options = &self.question.options;
        options.give_text()
            && options.limit.is_none()
            && options.since.is_none()
            && !options.by_first_parents
            && self.chosen.hidden.is_empty()
            && self.chosen.pairs.is_empty()
    }

    /// Whether a list leaves out commits by what they say, so that nobody knows how many are met until enough are left.
    fn leaves_some_out(&self) -> bool {
        let options = &self.question.options;
        options.until.is_some() || options.merges || options.no_merges
    }

    /// Writes the answer from a part of the history, and from a larger one where the command meets a commit that wasn't read yet. The
    /// lines that were written.
    fn from_part<W: Write>(
        &mut self,
        repository: &mut Repository<HostRuntime>,
        part: &mut Part,
        graph: Option<&Graph>,
        output: &mut W,
    ) -> Result<Vec<u8>, Failure> {
        let Some(command) = self.command()? else {
            return Ok(Vec::new(self.rt.alloc()));
        };
        let odb = &mut repository.odb;
        let answered = answer_from_part(&command, part, odb, graph, &mut self.progress)?;
        let ended = in_memory(answered.ended);
        if ended.is_ok() || self.question.name.takes_limit() {
            self.write_lines(answered.lines.as_slice(), output)?;
        }
        ended?;
        Ok(answered.lines)
    }

    /// Writes the lines of the command, as the question asks for them: with `--names` each with its word, and those of `is-ancestor` not at all.
    fn write_lines<W: Write>(&self, lines: &[u8], output: &mut W) -> Result<(), Fault> {
        let options = &self.question.options;
        if options.is_verbose && self.question.name == Name::Contains {
            self.say_unlisted(lines)?;
        }
        let is_plain = !options.as_json && !options.ends_in_zero && !options.gives_names;
        match self.question.name {
            Name::IsAncestor if !options.as_json => Ok(()),
            Name::IsAncestor => {
                let is_reached = !lines.is_empty();
                let text = format!(in self.rt.alloc(); "{{\"is_ancestor\":{is_reached}}}\n")?;
                write(output, text.as_bytes())
            }
            name if name.takes_limit() || is_plain => write(output, lines),
            _ => self.write_short(lines, output),
        }
    }

    /// Says which revisions aren't contained. Whoever looks for a fix may not know that a picked copy is another commit.
    fn say_unlisted(&self, lines: &[u8]) -> Result<(), AllocError> {
        let alloc = self.rt.alloc();
        let listed = are_listed(alloc, &self.chosen, lines)?;
        for (resolved, is_listed) in self.chosen.resolved.iter().skip(1).zip(listed.iter()) {
            if !*is_listed {
                let word = quoted(alloc, resolved.word.as_str())?;
                let _ = eprintln!(self.rt;
                    "gix_walk: {word:?} isn't contained; a picked copy of it is another commit"
                );
            }
        }
        Ok(())
    }

    /// Writes the lines of a short answer in another form than that of the command.
    fn write_short<W: Write>(&self, lines: &[u8], output: &mut W) -> Result<(), Fault> {
        let alloc = self.rt.alloc();
        let options = &self.question.options;
        let has_names = matches!(self.question.name, Name::Contains | Name::Containing);
        let mut text = Vec::new(alloc);
        if has_names && (options.gives_names || options.as_json) {
            for line in named(alloc, &self.chosen, lines)?.iter() {
                self.add_line(&mut text, Shape::Revision, line.as_slice())?;
            }
        } else {
            let shape = match self.question.name {
                Name::Ahead => Shape::Ahead,
                _ => Shape::Id,
            };
            for line in lines.split(|byte| *byte == b'\n') {
                if !line.is_empty() {
                    self.add_line(&mut text, shape, line)?;
                }
            }
        }
        write(output, text.as_slice())
    }

    /// Adds a line of a short answer, as JSON or with its end.
    fn add_line(&self, text: &mut Vec<u8>, shape: Shape, line: &[u8]) -> Result<(), AllocError> {
        let options = &self.question.options;
        if options.as_json {
            let line = json_line(self.rt.alloc(), shape, line)?;
            return text.extend_from_slice(line.as_bytes());
        }
        text.extend_from_slice(line)?;
        Ok(text.push(if options.ends_in_zero { 0 } else { b'\n' })?)
    }

    /// The status of an answer of these lines.
    fn status(&self, lines: &[u8]) -> u8 {
        status(self.question.name, self.chosen.tips.len(), lines)
    }

    /// Writes the id of each revision, those that are excluded with `^` and behind the others.
    fn write_ids<W: Write>(&self, output: &mut W) -> Result<u8, Fault> {
        let alloc = self.rt.alloc();
        let mut text = Vec::new(alloc);
        for word in self.chosen.id_words(alloc)?.iter() {
            self.add_line(&mut text, Shape::Resolved, word.as_bytes())?;
        }
        write(output, text.as_slice())?;
        Ok(0)
    }

    /// Answers a question about commits from the objects that were read, and rows.
    fn finish<W: Write>(
        &mut self,
        repository: &mut Repository<HostRuntime>,
        part: &mut Part,
        graph: Option<&Graph>,
        output: &mut W,
    ) -> Result<u8, Failure> {
        let alloc = self.rt.alloc();
        let name = self.question.name;
        if name != Name::Ahead {
            let store = part.gathering.store();
            self.chosen.exclude_common(alloc, store, graph)?;
        }
        if name == Name::Resolve {
            return Ok(self.write_ids(output)?);
        }
        let Some(command) = self.command()? else {
            return Ok(0);
        };
        if graph.is_some() && self.question.options.give_text() {
            part.read_listed(&command, &mut repository.odb, graph)?;
        }
        Ok(self.finish_list(&command, part.gathering.objects(), graph, output)?)
    }

    /// Runs the command over the objects that were read, and rows.
    fn finish_list<W: Write>(
        &self,
        command: &Command,
        objects: &NamedObjects,
        graph: Option<&Graph>,
        output: &mut W,
    ) -> Result<u8, Fault> {
        let alloc = self.rt.alloc();
        if self.question.name.takes_limit() {
            gix_commands::answer(alloc, command, objects, graph, output)?;
            return Ok(0);
        }
        let mut lines = Vec::new(alloc);
        in_memory(gix_commands::answer(alloc, command, objects, graph, &mut lines))?;
        self.write_lines(lines.as_slice(), output)?;
        Ok(self.status(lines.as_slice()))
    }
}

/// How a run into memory ended: it can't be written where memory ran out.
fn in_memory(ended: Result<(), Fault>) -> Result<(), Fault> {
    match ended {
        Err(Fault::Write) => Err(Fault::Memory),
        ended => ended,
    }
}

/// Writes bytes.
pub(crate) fn write<W: Write>(output: &mut W, bytes: &[u8]) -> Result<(), Fault> {
    match output.write_all(bytes) {
        Ok(()) => Ok(()),
        Err(_) => Err(Fault::Write),
    }
}

/// Whether memory ran out.
fn is_want_of_memory(failure: &Failure) -> bool {
    matches!(failure, Failure::Command(Fault::Memory))
}

/// Whether a failure says that rows can't be used. Nothing has been written then.
fn is_refusal(failure: &Failure) -> bool {
    matches!(
        failure,
        Failure::Command(Fault::Graph(_) | Fault::Row(_) | Fault::Disagrees(_))
    )
}
