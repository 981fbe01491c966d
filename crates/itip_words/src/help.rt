//! The help that each word shows.

/// What a script is, and what is written.
pub(crate) const RUN_HELP: &str =
    "A script is read from standard input. Its commands are the lines that begin with `!`:

  !take D         desk D takes the message on the lines behind the command
  !list D         the task list of desk D in the window
  !mine D ADDRESS the rows of that list that show the attendee of an address
  !post D T       desk D posts what changed after its tick T, as a packet
  !arrive K D     packet K reaches desk D
  !entries D      how many items desk D keeps
  !report D NAME  a report of desk D: load, progress, cancelled, orphans or refresh
  !resend D UID   the messages of a to-do to send again
  !next D UID     the next SEQUENCE to use for a to-do

Each command has its reply on standard output, in order, or `refused N`. Desks, packets and commands are numbered from 0.
With --why standard error has `take 3: refused 9: DTSTAMP is missing in to-do 2` for each that was refused, 3 the number
of the command. Lines are numbered from 1 in the message, as they stand there.

  (echo '!take 0'; cat message.ics; echo '!list 0') | itipdesk run --from 20260101 --to 20270101

With --stream each command is answered, and the reply written, before the next is read, and a stream has no limit. A message
comes by its number of octets, right behind the line, so that no text in it is taken for a command:

  !take D N       desk D takes the message that the next N octets are
  !post D T       what changed at desk D after its tick T: `post D tick T items I bytes N`, and these N octets, a delta
  !arrive D N     the delta that the next N octets are reaches desk D
  !save D FILE    desk D is written to a file, with its tick and what moved when; --load D=FILE begins with it

  itipdesk run --stream --load 0=desk.ics --from 20260101 --to 20270101

The other commands are those of a script. Where an N isn't a number, what follows the line is taken for commands.

Exit status:
  0  no reply was a refusal
  1  a reply was a refusal
  2  the words or the window are bad
  3  a read or a write failed, or there was no memory
  4  a file of --load is of no desk, for the cause on standard error: nothing is read";

/// What is shown of a message.
pub(crate) const CHECK_HELP: &str =
    "Standard output has `items N` and each item in canonical form, or `refused N`. With --why standard error says where and why.

  itipdesk check --why < message.ics

Exit status:
  0  the message was read
  1  it was refused
  2  the words are bad
  3  a read or a write failed, or there was no memory";

/// What the jobs of a script are, and what is written.
pub(crate) const OFFICE_HELP: &str =
    "A script is read from standard input. Its jobs are the lines that begin with `!`, numbered from 0:

  !take D         desk D takes the message on the lines behind the command
  !carry A B      what desk A keeps comes to desk B
  !look D         a worker makes the task list of desk D in the window

Workers take the jobs and do them side by side, in no order that is told; one thread for each desk merges what comes
to it. In the end the desks exchange all that they keep, so that each has the same list, whatever the order was.

On standard output there is `job N refused C` for each job that is refused, in the order of the jobs, and then the
task list of each desk in the window. Desks are numbered from 0. With --why standard error has
`job 3: refused 9: DTSTAMP is missing in to-do 2` for each that was refused.

  (echo '!take 1'; cat message.ics) | itipdesk office --desks 2 --workers 4 --from 20260101 --to 20270101

Exit status:
  0  no job was refused
  1  a job or a list was refused
  2  the words or the window are bad
  3  a read or a write failed, there was no memory, or no thread could be made";

/// What is read and written when messages are compacted.
pub(crate) const COMPACT_HELP: &str =
    "Sources are files, folders, which stand for the .ics files in them, and - for standard input; without one standard input
is read. All their messages are heard, in whatever order. One that is refused is not heard; it is named on standard error, as
`mail.ics message 3: refused 9`, and with --why also where and why. What is written can be read again, beside other messages.

  itipdesk compact desk.ics message.ics > newer.ics
  itipdesk compact --output desk.ics desk.ics inbox

With --output nothing is on standard output, and the file is the old one until all is written. It may be one of the sources.

Exit status:
  0  nothing was refused
  1  a message was refused
  2  the words are bad
  3  a read or a write failed, or there was no memory";

/// What is read and written when the task list of messages is made.
pub(crate) const LIST_HELP: &str =
    "Sources are files, folders, which stand for the .ics files in them, and - for standard input; without one standard input
is read. All their messages are heard, in whatever order. One that is refused is not heard; it is named on standard error, as
`mail.ics message 3: refused 9`, and with --why also where and why.

  itipdesk list desk.ics inbox
  itipdesk list --attendee ann@example.com --open --due-before today desk.ics
  itipdesk list --from 20260101 --to 20270101 --format csv < desk.ics
  itipdesk list --open --format html desk.ics > todos.html

The window is one of days, of which the last is not in it, at most 3660. Without --from and --to it is from 366 days before
today to 366 days after; with one of them it is 732 days long. With --due-before it begins earlier: 3290 days before today,
and with one of them it is 3656 days long.

An address without a colon is taken with mailto: before it. Where --attendee and --open stand together, the rows are those
that are open for this attendee: who has neither completed nor declined nor delegated it.

A page (html) is one file, without scripts and without anything from outside, for a screen, a phone and print. An open row whose
DUE is before today has the word overdue. No text of a message can put markup into it.

Where there are more than 100000 of the rows that are asked for, `refused 31` is written in place of them; with --why
standard error then names the to-do with the most rows.

Exit status:
  0  nothing was refused
  1  a message was refused, or the list
  2  the words or the window are bad
  3  a read or a write failed, there was no memory, or the clock can't be read";

/// What is read and written when a report of messages is made.
pub(crate) const REPORT_HELP: &str = "  load       how many rows show each attendee
  progress   how far each row is that has a progress
  cancelled  the to-dos, instances and ranges that are cancelled
  orphans    the answers and refresh requests that belong to nothing
  refresh    the refresh requests that wait for an answer

Sources are files, folders, which stand for the .ics files in them, and - for standard input; without one standard input
is read. All their messages are heard, in whatever order. One that is refused is not heard; it is named on standard error, as
`mail.ics message 3: refused 9`, and with --why also where and why.

  itipdesk report load --from 20260101 --to 20260201 desk.ics inbox
  itipdesk report orphans desk.ics

Days are for load and progress alone, which are of the rows of a window. Without --from and --to it is from 366 days before
today to 366 days after; with one of them it is 732 days long. Where there are more than 100000 rows, `refused 31` is written.

Exit status:
  0  nothing was refused
  1  a message was refused, or the report
  2  the words or the window are bad
  3  a read or a write failed, there was no memory, or the clock can't be read";

/// What is read and written when messages are compared with others.
pub(crate) const NEWS_HELP: &str =
    "Sources are files, folders, which stand for the .ics files in them, and - for standard input; without one beside --than
standard input is read. A message that is refused is not heard; it is named on standard error, as `mail.ics message 3: refused 9`,
and with --why also where and why.

  itipdesk news --than desk.ics inbox > news.ics
  itipdesk news --than monday.ics --than tuesday.ics desk.ics

Written is what `compact` keeps of all sources and doesn't keep of those of --than alone. So who has these compacts them with
the news, and has what `compact` makes of all. Where there is nothing new, nothing is written.

Exit status:
  0  nothing was refused
  1  a message was refused
  2  the words are bad
  3  a read or a write failed, or there was no memory";

/// What is read and written when a to-do is explained.
pub(crate) const EXPLAIN_HELP: &str =
    "Sources are files, folders, which stand for the .ics files in them, and - for standard input; without one standard input
is read. A message that is refused is not heard; it is named on standard error, as `mail.ics message 3: refused 9`, and with
--why also where and why.

  itipdesk explain u1 desk.ics inbox

Each line is about an item that a message tells: where it stands, what it is, its instance or -, its attendee, SEQUENCE,
DTSTAMP, and what came of it:

  inbox/1.ics message 1: request - seq 0 stamp 20260101T090000Z overtaken by inbox/2.ics message 1
  inbox/2.ics message 1: request - seq 1 stamp 20260102T090000Z stands
  inbox/3.ics message 1: reply - mailto:ann@example.com seq 1 stamp 20260103T090000Z counts

Exit status:
  0  nothing was refused
  1  a message was refused
  2  the words are bad
  3  a read or a write failed, or there was no memory
  4  no message is about this to-do";

/// What is read and written when a to-do is sent again.
pub(crate) const RESEND_HELP: &str =
    "Sources are files, folders, which stand for the .ics files in them, and - for standard input; without one standard input
is read. A message that is refused is not heard; it is named on standard error, as `mail.ics message 3: refused 9`, and with
--why also where and why.

  itipdesk resend u1 desk.ics > again.ics

Written are the newest revision of the to-do and each of its changed instances, as they were sent: --at changes nothing.

Exit status:
  0  nothing was refused
  1  a message was refused, and the messages were written
  2  the words are bad
  3  a read or a write failed, there was no memory, or the clock can't be read
  4  the to-do isn't known, or it is cancelled: nothing is written";

/// What is read and written when to-dos are requested.
pub(crate) const REQUEST_HELP: &str =
    "A draft is a file as a REQUEST is, VERSION included. Its METHOD, DTSTAMP and SEQUENCE don't matter and may be absent: written
are METHOD:REQUEST, the moment of writing, and for each to-do the SEQUENCE after all that its sources tell, or 0 for a new one.

Sources are files, folders, which stand for the .ics files in them, and - for standard input; without one standard input
is read, unless the draft is. A message that is refused is not heard; it is named on standard error, as
`mail.ics message 3: refused 9`, and with --why also where and why.

  itipdesk request draft.ics desk.ics > request.ics
  itipdesk compact --output desk.ics desk.ics request.ics

What a request should have and the draft lacks is named on standard error, as `warning: ORGANIZER is missing`.

Exit status:
  0  nothing was refused
  1  a message was refused, and the request was written
  2  the words are bad
  3  a read or a write failed, there was no memory, or the clock can't be read
  4  the draft can't be sent, for the cause on standard error: nothing is written";

/// What is read and written when an attendee answers.
pub(crate) const REPLY_HELP: &str =
    "Sources are files, folders, which stand for the .ics files in them, and - for standard input; without one standard input
is read. A message that is refused is not heard; it is named on standard error, as `mail.ics message 3: refused 9`, and with
--why also where and why.

  itipdesk reply u1 --attendee ann@example.com --status ACCEPTED desk.ics > reply.ics
  itipdesk reply u1 --attendee ann@example.com --status IN-PROCESS --percent 60 --id 20260105 desk.ics > reply.ics

The answer is to the to-do as a whole, or with --id to one instance of it. A desk that has heard the sources and then the
answer shows it. An address without a colon is taken with mailto: before it.

Exit status:
  0  nothing was refused
  1  a message was refused, and the answer was written
  2  the words are bad
  3  a read or a write failed, there was no memory, or the clock can't be read
  4  there is nothing to answer, for the cause on standard error: nothing is written";

/// What is read and written when an attendee wants to be sent a to-do again.
pub(crate) const REFRESH_HELP: &str =
    "Sources are files, folders, which stand for the .ics files in them, and - for standard input; without one standard input
is read. A message that is refused is not heard; it is named on standard error, as `mail.ics message 3: refused 9`, and with
--why also where and why.

  itipdesk refresh u1 --attendee ann@example.com desk.ics > refresh.ics

The organizer's `report refresh` has the wish until a newer revision was sent; `resend` writes what to send. An address
without a colon is taken with mailto: before it.

Exit status:
  0  nothing was refused
  1  a message was refused, and the wish was written
  2  the words are bad
  3  a read or a write failed, there was no memory, or the clock can't be read
  4  there is nothing to ask for, for the cause on standard error: nothing is written";

/// What is read and written when something is cancelled.
pub(crate) const CANCEL_HELP: &str =
    "Sources are files, folders, which stand for the .ics files in them, and - for standard input; without one standard input
is read. A message that is refused is not heard; it is named on standard error, as `mail.ics message 3: refused 9`, and with
--why also where and why.

  itipdesk cancel u1 desk.ics > cancel.ics                                        the to-do as a whole
  itipdesk cancel u1 --id 20260105 desk.ics > cancel.ics                          one instance of it
  itipdesk cancel u1 --id 20260105 --onward desk.ics > cancel.ics                 an instance and all after it
  itipdesk cancel u1 --attendee ann@example.com desk.ics > cancel.ics             Ann has nothing more to do with it

An address without a colon is taken with mailto: before it.

Exit status:
  0  nothing was refused
  1  a message was refused, and the cancellation was written
  2  the words are bad
  3  a read or a write failed, there was no memory, or the clock can't be read
  4  there is nothing to cancel, for the cause on standard error: nothing is written";
