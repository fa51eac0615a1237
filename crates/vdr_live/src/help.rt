// What the program says of itself.

pub(crate) const VERSION: &str = "vdr 0.1.0\n";

pub(crate) const HELP: &str =
    "vdr: a voyage data recorder for the ship's network (IEC 61996-1, IEC 61162-450)

Usage:
  vdr FOLDER COMMAND
  vdr FILE from COMMAND WORDS
  vdr --help (or -h)
  vdr --version

FOLDER holds the media. A command that uses no media takes any folder, such as `.`. One command at
a time works on a folder: it locks the media, and another one ends with status 5. Where a command
ends with another status than 0, a line on the standard error says what stood in the way.

Commands:
  review    Reads a feed of captured datagrams from standard input, to its end, and
            prints the Datagram and Gap records of its last 48 hours, and below each
            datagram what its lines are: good, or refused by a TAG block or as a sentence.
  review D B
            The same, where each transmission group has at most D datagrams (1 to
            10,000) and B bytes of them (6 to 10,000,000) in a second of recorder
            time. What the rate refuses stands in a Gap record.
  import    Reads a capture of tcpdump, dumpcap or Wireshark from standard input, as pcap or pcapng,
            to its end, and writes the feed of its datagrams to the UDP ports of the groups,
            60001 to 60016, to standard output, each as soon as it was read. One that was
            captured in part is an item without bytes, so that its gap is marked.
  packets   Reads a capture so, and prints what became of its packets: how many there are, for
            each group how many of its datagrams were captured whole or cut, for each cause how
            many were left out, how many the capture lost itself, and how often its clock
            went back.
  verify    Reads an evidence file from standard input to its end, and prints what it holds: the
            SHA-256 of the configuration, the medium or the incident, the query, the places and
            stamps of the first and the last record, how many records of each kind there are,
            what the gaps count, and the SHA-256 of the file. One that is no evidence ends with
            its first part that is not legal, and where that begins.
  from COMMAND WORDS
            Reads FILE, an evidence file in the place of FOLDER, and prints what COMMAND prints of its
            records: `play`, `values`, `track`, `sources`, `watch`, `runs`, `digest`, `targets`, `wav`,
            `picture` or `pictures`, with its WORDS but MEDIUM. The file is read to its end first, and
            one that is no evidence ends as by `verify`, with nothing printed. It is read again for
            its records, so that it has to be a file, and where it has changed since, that is told.
  check     Reads a configuration from standard input and prints what it needs: the
            number of groups, the cost of a second and the usable bytes of a segment,
            and the slots of the capsule and of the long-term medium. A medium of N
            slots has 32,768 bytes and N segments.
  make      Reads a configuration from standard input, makes the media that it asks for, and
            formats them: FOLDER where there is none, and in it the files capsule.vdr and
            longterm.vdr, of the least sizes that `check` says, for their owner alone, with their
            blocks taken. Where a name is taken nothing is changed; where it fails nothing is left.
  format    Reads a configuration from standard input and formats the media, which are
            the files capsule.vdr and longterm.vdr in FOLDER. They have to be there, as
            large as `check` says, or be block devices. Media that are formatted already are
            left as they are.
  reformat  The same, also where the media are formatted already: what they hold is lost.
  replay    Reads a feed from standard input and records it on the media, as one run: by
            the rates of the configuration, and with its gaps marked. Prints for each
            configured group what its port gave, what is recorded of it and what is not,
            and then the number of records of the run. A feed that is refused, or can't
            be read further, is recorded up to there, and the run is closed; so it is at the
            first item of a group that is not configured.
  record TURNS
            Records what comes to the UDP ports of the configured groups, 60001 and up, as one
            run: by the rates of the configuration, and with its gaps marked. Each port is asked
            TURNS times at most (1 to 1,000,000,000,000), and waits up to 50 milliseconds each
            time, so that 72000 is an hour or less. Prints what `replay` prints. A port that
            fails is told at the end, and the others go on.
            Meanwhile an operator's orders are answered on 127.0.0.1, TCP port 61450, line by line:
            `STATUS`, `SAVE LABEL`, `RELEASE ID`, and with the words of their commands `PLAY`,
            `INCIDENTS`, `SOURCES`, `WATCH`, `TARGETS` and `DIGEST`; as lines of base64 `WAV` and
            `PICTURE`, and `EVIDENCE incident-ID` the evidence of an incident. This link is asked for
            a line TURNS times at most, and waits as a port does. `STOP` ends the recording: what waits
            is recorded, and the run is closed.
  order WORDS
            Sends such a line to the recorder of this host, with the first word in capitals, prints
            what is replied behind its `OK`, and ends with the status of a refusal. FOLDER may be any.
  play MEDIUM CHANNEL FROM TO
            Prints what stands on the media, as `review` does, with the Start and Stop of
            each run. MEDIUM is `capsule` or `longterm`, of which the window is printed,
            or `incident-ID` with the ID, 1 to 32, of a saved incident. CHANNEL is the
            name of a configured channel, or `all`. FROM and TO are stamps such as
            2024-01-01T00:00:00.000Z, both included, or `-` for no bound.
  values MEDIUM CHANNEL FROM TO
            Prints the values that these records say as a table, plain CSV with a header that SQLite,
            DuckDB or pandas load as it is; the words are as for `play`. A row has the stamp, the
            place, the group, the source and the sentence of a value, then `item,name,value,unit`,
            `valid` (1 or 0, empty where the sentence says nothing of it) and `text`. Positions are
            degrees. Gaps are rows `missed` with their cause, the ends of runs `start` and `stop`.
  track MEDIUM SOURCE FROM TO
            Prints the track of a source as GPX, which charts and `gpsbabel` read: the valid positions
            that its lines say, of all records from FROM to TO. SOURCE is as in `play`, such as GP0001,
            or `-` for lines that name none. Where something is missing a segment ends: at a Start, a
            gap of the group, a position that is not valid, and more than ten seconds without one.
  sources MEDIUM
            Prints the table of sources of a window or an incident, MEDIUM as for `play`: for each
            group and source a line `GROUP SOURCE FIRST LAST LINES BAD BREAKS`, in this order.
            FIRST and LAST are the stamps of the first and the last record with a line of the
            source, LINES is the number of its lines, BAD how many of them are refused, as
            sentences or by a TAG block, and BREAKS how often its line count doesn't go on from
            the one before: then lines were lost. Lines that name no source stand under `-`.
  watch MEDIUM
            Prints what heartbeats and alarms (HBT and ALR) show of the equipment in a window or an
            incident, MEDIUM as for `play`: `PLACE UTC silent GROUP SOURCE MS` where a heartbeat
            comes more than twice its interval behind the one before it, or none comes up to the
            last record; `PLACE UTC jump GROUP SOURCE OLD NEW` where its sequence number is not
            the next one; `PLACE UTC alarm GROUP SOURCE NUMBER CONDITION ACKNOWLEDGED TEXT` at an
            alarm's first state and at each change of it.
  runs MEDIUM
            Prints when the recorder ran, by the records of a window or an incident, MEDIUM as for
            `play`: for each run a line `A B FROM TO STATE TICK`, and below it what it missed,
            `full N rate N bad N large N`. A and B are the places of its first and last record
            there, FROM and TO the stamps of its first and last datagram, `-` without one, TICK the
            recorder time of its last record in milliseconds. STATE is `closed` where it has its
            Stop, `cut` where the next run begins without one, and `open` where it goes on behind
            the last record. From one run's TO to the next one's FROM nothing was recorded.
  digest MEDIUM
            Prints the digest of a window or an incident, MEDIUM as for `play`: for each hour of
            recorder time a line `HOUR A B RECORDS HEX`, with the places of its first and last
            record, how many there are, and the SHA-256 of their bytes; then the same with `all`
            for HOUR, of all records, where HEX is the SHA-256 of the lines above. Who has written
            it down knows later whether a record was changed, left out or added.
  evidence MEDIUM CHANNEL FROM TO
            Writes the records that `play` prints for these words to standard output, as a file that
            any program can read and check: as they stand on the media, behind the configuration,
            the medium, the incident and the query, and before the SHA-256 of all.
  page MEDIUM FROM TO
            Writes a page of the records that `play MEDIUM all FROM TO` prints to standard output: one
            HTML file that any browser shows from a disk, without a network. It has the track and the
            AIS targets, the readings over time, alarms and alerts, silences and gaps, pictures and
            sound, and the records. A page that was cut off says that it is not whole, and the status
            line ends it.
  trial SEED COUNT
            Tries media that hold nothing yet: formats them with the bench configuration (files of
            122,880 and 712,704 bytes), records COUNT generated items (0 to 1,000,000) from SEED
            on (0 to 2,147,483,647) as `replay` does, opens them again, and prints what was taken,
            recorded and refused by the rate, the records of the run, and how many of them stand
            in the windows of the capsule and of the long-term medium.
  targets MEDIUM AT
            Prints the ships that AIS messages in VDM and VDO sentences report, of a window or an
            incident, MEDIUM as for `play`, up to the stamp AT, or to the end where it is `-`: for
            each a line `MMSI UTC REPORTS LATITUDE LONGITUDE SPEED COURSE HEADING NAME`, by MMSI.
            UTC is the stamp of the record with its last report, REPORTS how many there are, and
            the last position and the last name stand behind them, `-` where none came. LATITUDE
            and LONGITUDE are in ten-thousandths of a minute, north and east above 0, SPEED in
            tenths of a knot, COURSE in tenths of a degree, HEADING in degrees. A ship that sends
            no value sends 54600000, 108600000, 1023, 3600 or 511 in its place.
  wav MEDIUM CHANNEL FROM TO
            Writes the sound of a channel of kind `pcm` to standard output, as a WAVE file; the words
            are as for `play`. Frames that are missing are silent.
  wav MEDIUM CHANNEL FROM TO timed
            Writes it on its time line: each frame stands where the stamp of its record says, counted
            from FROM, or from the first frame where that is `-`, with silence where nothing is. A source
            that stood still for five minutes leaves five minutes of silence.
  picture MEDIUM CHANNEL SOURCE BLOCK FROM TO
            Writes the image with this SOURCE (six bytes, such as EI0001) and BLOCK (a number), out of
            a channel of kind `image`, to standard output, once all its parts are there.
  pictures MEDIUM CHANNEL FROM TO
            Prints the images of a channel of kind `image` of which a selected record has a part, in
            the order of their first parts: for each a line `SOURCE BLOCK UTC PARTS OF COMPLETE`. UTC
            is the stamp of its first part, PARTS how many of its OF parts are there, and COMPLETE is
            `complete`, `part`, or `mixed` where parts say several numbers of parts; `picture` writes
            what is `complete`. The words are as for `play`.
  rescue COMMAND WORDS
            Does what COMMAND does, which is `play`, `values`, `track`, `sources`, `watch`, `runs`,
            `digest`, `targets`, `wav`, `picture` or `pictures`, on one medium alone: that of its
            WORDS, and for `incident-ID` the long-term one. The medium may be whole, cut short or damaged, the other
            one may be lost; nothing is written. Each record that legally stands there is given.
            Behind that stand, but for `wav`, `picture` and `pictures`, `missing A B` for places that
            the medium owes and lacks, `damaged OFFSET` for each part that is not legal, and
            `closed OFFSET` for a slot that a stop may have closed, and so may a changed byte.
  rescue info MEDIUM
            Prints what `info` prints of one medium, `capsule` or `longterm`, by all records that
            legally stand there, and then what `rescue` prints behind the records.
  compare   Reads both media, each of them alone, and prints by rising place `differs PLACE` where both
            have a record, with other bytes, and `lacks MEDIUM A B` for the longest runs of places that
            the other medium has and this one lacks of its window; then `same A B`, the least and the
            greatest place of records that are the same. Before these stand `differs configuration`
            where the texts of the configurations differ, and `damaged MEDIUM OFFSET` for each part that
            is not legal, of `capsule` and then of `longterm`. Nothing is written.
  save LABEL
            Saves an incident: keeps the records of the long-term medium, from the first one
            of the last `incident_seconds` of recorder time to the last one, until the
            incident is released. LABEL has 1 to 64 bytes of 0x20 to 0x7E. Prints the ID of
            the incident, the least that is free.
  incidents Prints the saved incidents, by their IDs, each as a line
            `ID TICK UTC A B LABEL`: recorder time in milliseconds and stamp of its last
            record, the places of its first and of its last record, and its label.
  info      Prints what the media are: for each a line `MEDIUM slots N segment N used N first PLACE
            UTC last PLACE UTC seconds N`, then the saved incidents as `incidents` does, and
            `configuration BYTES SHA256` with the configuration's text below it. N slots of so many
            bytes, how many of them hold a segment, where the records begin and end, within the
            window or before it, `-` where there is none, and the seconds of recorder time from one
            to the other. The first stamp is the least of the oldest segment. It reads headers and
            the newest segment alone.
  release ID
            Releases the incident with this ID, 1 to 32. What it kept goes as other records
            do, and its ID is free.

Examples:
  vdr . review < examples/harbour.feed
  vdr . review 2 200 < examples/harbour.feed
  vdr . check < examples/ship.json
  vdr . packets < bridge.pcapng
  vdr . import < bridge.pcapng | vdr voyage replay
  vdr . verify < night.evidence
  vdr night.evidence from play all - -

A voyage on bench media, of which the capsule keeps a minute:
  mkdir voyage
  fallocate -l 122880 voyage/capsule.vdr
  fallocate -l 712704 voyage/longterm.vdr
  vdr voyage format < examples/bench.json
  vdr voyage replay < examples/voyage.feed
      NAVD taken 93 recorded 91 full 0 rate 2 bad 0 large 0
      records 94
  vdr voyage play longterm heading 2024-05-14T06:30:41.000Z 2024-05-14T06:30:41.000Z
      43 NAVD 42 2024-05-14T06:30:41.000Z gap 0 2 0 0
      44 NAVD 44 2024-05-14T06:30:41.000Z data 43 UdPbC<00>..
        good HE0001 45 HEHDT heading 275.5
The feed has a heading in each second of ninety, and three more in second 40: the rate has
room for one of them, and the gap counts the two others. `sources longterm` tells
  NAVD HE0001 2024-05-14T06:30:00.000Z 2024-05-14T06:31:29.000Z 91 0 1
with the break that they left. With the Start, the gap and the
Stop these are 94 records, which `play longterm all - -` prints; `play capsule all - -`
prints the last minute, from place 31 on. A second `replay` is a run of its own, which goes
on at place 94 and in the next second of recorder time, whatever the stamps say.

After an incident on that voyage:
  vdr voyage save grounding
      1
  vdr voyage incidents
      1 89000 2024-05-14T06:31:29.000Z 63 93 grounding
  vdr voyage play incident-1 heading - -
  vdr voyage release 1
The save keeps what the last half minute has, places 63 to 93, whatever is recorded after it,
until it is released.

Exit status, with the line that ends the output:
  0   all was done
  2   `status 2 words`: the words ask for nothing that vdr does
  3   `status 3 config N KEY`: the configuration is refused at the value with the path
      KEY: 1 no JSON object, 2 a key is missing, 3 a key is unknown, 4 a value has
      another type or is out of its range, 5 a name is given twice, 6 a ship's window
      is too short, 7 a segment is below four batches, 8 more than 16,380 bytes (at 1
      and 8 KEY is `-`)
  3   `status 3 small MEDIUM need N have N`: this medium, capsule or longterm, has fewer
      slots than the configuration needs; nothing was written
  4   `status 4 formatted`: the media are formatted already; nothing was written
  4   `status 4 unformatted`: the media are not formatted
  4   `status 4 damaged MEDIUM OFFSET`: a part of this medium, 0 the capsule or 1 the
      long-term medium, is not legal; it begins at OFFSET, in bytes
  4   `status 4 missing PLACE`: by `rescue`: nothing is damaged, and records lack from PLACE on;
      by `compare`: nothing is damaged, and this is the first place that differs or lacks
  5   `status 5 media`: a medium is in use by another process, may not be opened or
      written, or could not be read, written or synced; what was recorded before stays.
      `play`, `sources`, `targets` and `incidents` need no leave to write. Behind a write or a sync
      that failed capsule.left or longterm.left stands in FOLDER, and nothing is written while
      it does: see to the disk, start the host anew, and remove it
  6   `status 6 port GROUP`: the UDP port of this group could not be bound or read, the least
      group where several could not; the run is closed, and its summary stands above
  6   `status 6 link 0`: TCP port 61450 could not be listened on, and no port failed; the run is
      closed, and its summary stands above. Of `order`: no recorder listens, or it hung up
  7   `status 7 input`: the input could not be read
  8   the output could not be written
  9   `status 9 memory`: there was not enough memory; of `record`: or too few threads
  10  `status 10 feed N at OFFSET`: the feed is refused at the item that begins at
      OFFSET: 1 no feed, 2 cut off, 3 a time out of range, 4 no such group, or by
      `replay` one that is not configured, 5 an item received before the one before it,
      6 too many items. `replay` has recorded the items before it, and prints their
      summary above this line, as it does where `status 7 input` comes behind the feed's
      header
  11  `status 11 channel NAME`: no such channel is configured
  11  `status 11 incident ID`: no such incident is saved
  12  `status 12 label`: the label is not 1 to 64 bytes of 0x20 to 0x7E; nothing was saved
  12  `status 12 nothing`: nothing is recorded, so that there is nothing to save
  12  `status 12 full`: as many incidents are saved as the configuration has slots for; one
      has to be released first
  13  `status 13 place`: the next place is 2^62 or more; nothing was recorded
  13  `status 13 tick`: a run would begin at a tick of 2^62 or more; nothing was recorded
  14  `status 14 kind`: `wav` takes a channel of kind `pcm`, `picture` and `pictures` one of kind
      `image`
  14  `status 14 none`: no record that is asked for has a frame of the sound, or a part of the image
  14  `status 14 mixed PLACE`: from the record at PLACE on the rate of the sound, or the number of
      the image's parts, is another
  14  `status 14 long`: the sound has more bytes than a WAVE file can tell
  14  `status 14 part NUMBER`: no record that is asked for has this part of the image, the first
      that is missing
  16  `status 16 capture N at OFFSET`: the capture is refused at the packet or block that
      begins at OFFSET: 1 no capture, 2 cut off, 3 another version or order of bytes, 4 a
      length, 5 no such interface, 6 too many interfaces, 7 too many items. `import` has
      written the items before it
  16  `status 16 evidence PART at OFFSET`: by `verify` and `from`: the file is no evidence, and
      PART, which begins at OFFSET, is its first that is not legal
";
